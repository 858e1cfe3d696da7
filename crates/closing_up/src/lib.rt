// Closed records give their room back: a book is closed up in the lent room itself.
// `len` stands beside `room`: a host lends the room, and says how much of it is a book.
#![tactic(auto)]

ghost use Rattle.std.specs.Prelude.{◌≤◌, length};
ghost use Rattle.fields.specs.Put.{Put};
ghost use Rattle.book.specs.Told.{AllGood};
ghost use Rattle.closing_up.specs.Up.{entries_in, live_of};

use entry::Kind;
use header::Cursor;

// Closes up the records from `from` to `len`: the live ones, in order and byte for byte, from `from` on. Gives the place behind them. What
// stands behind that place is not touched.
pub fn close_up(room: &mut [u8], len: usize, format: u32, from: usize) -> usize
    requires { (from ≤ len) × (len ≤ length room.old) × AllGood (entries_in format room.old len from) }
    ensures { Put room.old from (live_of format (entries_in format room.old len from)) result room.new }
{
    let mut cursor = Cursor { at: from, floor: 0 };
    let mut to = from;
    // A while: the room is written between two readings, so no iterator can hold it.
    while cursor.at < len {
        let Ok(record) = entry::record_at(&room[..len], cursor.at, format, cursor.floor) else {
            return to;
        };
        if record.kind == Kind::Live {
            let size = record.next.at - cursor.at;
            copying::copy_down(room, to, cursor.at, size);
            to += size;
        }
        cursor = record.next;
    }
    to
}
