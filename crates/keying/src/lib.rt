// A new record: its codes are made under the header's edition and cut.
#![tactic(auto)]

ghost use Rattle.keying.specs.Keyed.{Keyed};

use chosen::{Choice, chosen};
use encoder::Encoder;
use header::Header;
use putting::NewRecord;
use terms::{CODE_ROOM, Fault, edition_of};

// The record of a station and a name, with the name's codes in the lent buffers.
pub fn new_record<'a>(
    header: Header,
    station: u64,
    name: &'a [u8],
    primary: &'a mut [u8; CODE_ROOM],
    alternate: &'a mut [u8; CODE_ROOM],
) -> Result<NewRecord<'a>, Fault>
    ensures { Keyed header station name.now result }
{
    let edition = edition_of(header.edition as u64);
    let limit = header::limit_of(header.cut);
    let coded = Encoder::in_edition(edition, limit).encode(name, primary, alternate)?;
    Ok(NewRecord {
        station,
        name,
        primary: chosen(
            Choice::Primary,
            primary,
            coded.primary,
            alternate,
            coded.alternate,
        ),
        alternate: chosen(
            Choice::Alternate,
            primary,
            coded.primary,
            alternate,
            coded.alternate,
        ),
    })
}
