// A new station key book in lent room: `BadNumber` for a cut that no number of the book holds, `NoRoom` for too little room. A refusal changes
// nothing.
#![tactic(auto)]

ghost use Rattle.std.specs.Prelude.{◌≡◌};
ghost use Rattle.header.specs.Head.{header_bytes, cut_of};
ghost use Rattle.putting.specs.Laid.{Placed, unless};
ghost use Rattle.starting.specs.New.{new_header, cut_fault};

use header::Header;
use putting::Made;
use terms::{Fault, Limit, NEW_EDITION, NEW_FORMAT};

// The cut that a limit is stored as, where four groups hold it.
fn cut_of(limit: Limit) -> Result<u32, Fault>
    ensures { result ≡ unless (cut_fault (cut_of limit)) (cut_of limit) }
{
    match limit {
        None => Ok(0),
        Some(n) => {
            if 0x0fff_fffe < n {
                return Err(Fault::BadNumber);
            }
            Ok(n as u32 + 1)
        }
    }
}

// A new book, with no records.
pub fn start(room: &mut [u8], limit: Limit) -> Made
    ensures { Placed (cut_fault (cut_of limit)) room.old 0 (header_bytes (new_header (cut_of limit))) result room.new }
{
    let cut = cut_of(limit)?;
    let header = Header {
        format: NEW_FORMAT,
        edition: NEW_EDITION,
        cut,
    };
    let size = putting::header_size(header);
    if room.len() < size {
        return Err(Fault::NoRoom);
    }
    Ok(putting::put_header(room, 0, header))
}
