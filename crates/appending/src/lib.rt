// Going on with a station key book from a known good end, in lent room: `NoRoom` says that the lent room is too short for the result; a refusal
// changes nothing. crates/adding adds to a book that it reads first.
#![tactic(auto)]

ghost use Rattle.std.specs.Prelude.{◌≡◌, Some, None, MatchResult};
ghost use Rattle.appending.specs.Ended.{end_fault, Appended};

use book::{End, Ended};
use terms::{CODE_ROOM, Fault};

// A format or an edition that is not known, then a book that ends behind the room.
fn check_end(end: End, room: usize) -> Result<(), Fault>
    ensures { MatchResult result (λ _. None ≡ end_fault end room) (λ f. Some f ≡ end_fault end room) }
{
    if let Some(fault) = header::unknown_fault(end.header.format, end.header.edition) {
        return Err(fault);
    }
    if room < end.len {
        Err(Fault::BookEnds)
    } else {
        Ok(())
    }
}

// Adds a record behind a known good end, and gives the new end. The book before it is not read again. Under `NoRoom` it may still fit: `add`
// of crates/adding closes the book up first.
pub fn append(room: &mut [u8], end: End, station: u64, name: &[u8]) -> Ended
    ensures { Appended room.old end station name.now result room.new }
{
    check_end(end, room.len())?;
    let header = end.header;
    let mut primary = [0u8; CODE_ROOM];
    let mut alternate = [0u8; CODE_ROOM];
    let new = keying::new_record(header, station, name, &mut primary, &mut alternate)?;
    let len = placing::append_coded(room, end.len, header.format, end.floor, new)?;
    Ok(End {
        header,
        len,
        floor: station as u32 + 1,
    })
}
