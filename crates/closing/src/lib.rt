// A station closed: its live record is found, and the record's kind becomes 0. The faults are the reader's, and `NoLive` where the station has no
// live record. A refusal changes nothing.
// `len` stands beside `room`: a host lends the room, and says how much of it is a book.
#![tactic(auto)]

ghost use Rattle.closing.specs.Closed.{Closed};

use putting::Made;

// Closes a station of the book in the first `len` bytes of the room, which are read first: the kind of its live record becomes 0.
pub fn close(room: &mut [u8], len: usize, station: u64) -> Made
    ensures { Closed room.old len station result room.new }
{
    let whole = book::read_in(room, len, 2)?;
    let place = finding::find_live(&room[..len], whole.first, whole.header.format, station)?;
    room[place] = 0;
    Ok(len)
}
