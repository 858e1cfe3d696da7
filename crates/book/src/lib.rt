// The station key book, read: a record at a cursor, all records to the end, a whole book, and one in the first bytes of lent room.
#![tactic(auto)]

ghost use Rattle.std.specs.Prelude.{◌≡◌, drop};
ghost use Rattle.header.specs.Head.{formats};
ghost use Rattle.book.specs.Book.{read_entries, read_book_by};
ghost use Rattle.book.specs.Room.{read_in_by};
ghost use Rattle.book.specs.Told.{next_of, surveyed, unmeasured, whole_by};

use entry::{Kind, Record};
use header::{Cursor, Header};
use terms::Fault;

// Where a good book ends, what its header says, and the least station that a further record may have.
#[derive(Clone, Copy, Debug, PartialEq, Eq)]
pub struct End {
    pub header: Header,
    pub len: usize,
    pub floor: u32,
}

pub type Ended = Result<End, Fault>;

// How many records there are and how many of them are live, the least station behind all of them and behind the live ones, and how many
// bytes the live ones take.
#[derive(Clone, Copy, Debug, Default, PartialEq, Eq)]
pub struct Measure {
    pub count: usize,
    pub live: usize,
    pub floor: u32,
    pub least: u32,
    pub size: usize,
}

// A book that was read to its end: where its records begin, and what they measure.
#[derive(Clone, Copy, Debug, PartialEq, Eq)]
pub struct Whole {
    pub header: Header,
    pub first: usize,
    pub measure: Measure,
}

pub type Reading = Result<Whole, Fault>;

// The record at a cursor of a book with this format and edition, none at its end.
pub fn next(s: &[u8], format: u32, edition: u32, c: Cursor) -> Result<Option<Record>, Fault>
    ensures { result ≡ next_of s.now format edition c }
{
    if let Some(fault) = header::unknown_fault(format, edition) {
        return Err(fault);
    }
    if s.len() <= c.at {
        return Ok(None);
    }
    let record = entry::record_at(s, c.at, format, c.floor)?;
    Ok(Some(record))
}

// Measures all records from a place on.
pub fn records_from(s: &[u8], from: usize, format: u32) -> Result<Measure, Fault>
    ensures { result ≡ surveyed format unmeasured (read_entries format 0 (drop from s.now)) }
{
    let mut c = Cursor { at: from, floor: 0 };
    let mut all = Measure::default();
    // A record's end is known only when it is read, and a fault ends the walk.
    while c.at < s.len() {
        let record = entry::record_at(s, c.at, format, c.floor)?;
        let next = record.next;
        if record.kind == Kind::Live {
            all.live += 1;
            all.least = next.floor;
            all.size += next.at - c.at;
        }
        all.count += 1;
        all.floor = next.floor;
        c = next;
    }
    Ok(all)
}

// Reads a whole book of a format from `least` on.
pub fn read(s: &[u8], least: u32) -> Reading
    ensures { result ≡ whole_by (read_book_by (formats least) s.now) }
{
    let opened = header::open(s, least)?;
    let measure = records_from(s, opened.first.at, opened.header.format)?;
    Ok(Whole {
        header: opened.header,
        first: opened.first.at,
        measure,
    })
}

// Reads the book in the first `len` bytes of the room, of a format from `least` on. `len` stands beside it, since a host lends both;
// a stated length beyond the room is a short book.
pub fn read_in(room: &[u8], len: usize, least: u32) -> Reading
    ensures { result ≡ whole_by (read_in_by (formats least) room.now len) }
{
    let there = slices::least(len, room.len());
    let whole = read(&room[..there], least)?;
    if room.len() < len {
        return Err(Fault::BookEnds);
    }
    Ok(whole)
}
