// The live record of a station found, in a book whose records read.
#![tactic(auto)]

ghost use Rattle.std.specs.Prelude.{◌≡◌, ◌&&◌, eqb, drop};
ghost use Rattle.book.specs.Book.{read_entries};
ghost use Rattle.book.specs.Told.{AllGood};
ghost use Rattle.entry.specs.Kinds.{number_of};
ghost use Rattle.finding.specs.Finding.{Sought};

use entry::Kind;
use header::Cursor;
use terms::Fault;

// Where the kind of a record stands.
pub type Place = Result<usize, Fault>;

// Whether a record is the live one of a station.
fn is_meant(kind: Kind, here: u32, station: u64) -> bool
    ensures { result ≡ (eqb (number_of kind) 1 && eqb here station) }
{
    kind == Kind::Live && here as u64 == station
}

// Where the kind of the live record of a station stands, in a book whose records read; `NoLive` for none.
pub fn find_live(s: &[u8], from: usize, format: u32, station: u64) -> Place
    requires { AllGood (read_entries format 0 (drop from s.now)) }
    ensures { Sought s.now format station from result }
{
    let mut cursor = Cursor { at: from, floor: 0 };
    // A while: the next place is known only from the record that was read.
    while cursor.at < s.len() {
        let record = entry::record_at(s, cursor.at, format, cursor.floor)?;
        if is_meant(record.kind, record.station, station) {
            return Ok(cursor.at);
        }
        cursor = record.next;
    }
    Err(Fault::NoLive)
}
