// The header of a station key book, read: format, edition and cut. Its faults: a number in a bad form, the
// book ends inside it, unknown format or edition.
#![tactic(auto)]

ghost use Rattle.std.specs.Prelude.{◌≡◌, drop};
ghost use Rattle.fields.specs.Field.{read_number};
ghost use Rattle.fields.specs.Told.{value_at};
ghost use Rattle.header.specs.Head.{known, formats, read_header_by, opened_by, unknown, limit_of};

use fields::Field;
use terms::{EDITIONS, FORMATS, Fault, Limit};

// The cut is 0 for none, else the limit plus 1. Format and edition are any numbers: a caller hands a header in again with its end, and one that
// is not known is answered by `NotKnown`.
#[derive(Clone, Copy, Debug, PartialEq, Eq)]
pub struct Header {
    pub format: u32,
    pub edition: u32,
    pub cut: u32,
}

// Where the next record begins, and the least station that it may have.
#[derive(Clone, Copy, Debug, PartialEq, Eq)]
pub struct Cursor {
    pub at: usize,
    pub floor: u32,
}

// A book whose header was read, and a cursor at its first record.
#[derive(Clone, Copy, Debug, PartialEq, Eq)]
pub struct Opened {
    pub header: Header,
    pub first: Cursor,
}

// The fault of a format or an edition that is not one of those from `least` to `most`. An Option, as the definition's judges answer.
fn known_fault(value: u32, least: u32, most: u32) -> Option<Fault>
    ensures { result ≡ known least most value }
{
    if value < least || most < value {
        Some(Fault::NotKnown)
    } else {
        None
    }
}

// The fault of a format or an edition that is not known.
pub fn unknown_fault(format: u32, edition: u32) -> Option<Fault>
    ensures { result ≡ unknown format edition }
{
    known_fault(format, 1, FORMATS).or(known_fault(edition, 1, EDITIONS))
}

fn known_at(s: &[u8], at: usize, least: u32, most: u32) -> Result<Field<u32>, Fault>
    ensures { result ≡ value_at at (read_number (known least most) (drop at s.now)) }
{
    let found = fields::number_at(s, at)?;
    match known_fault(found.value, least, most) {
        None => Ok(found),
        Some(fault) => Err(fault),
    }
}

// The header of a book of a format from `least` on, and a cursor at its first record.
pub fn open(s: &[u8], least: u32) -> Result<Opened, Fault>
    ensures { result ≡ opened_by (read_header_by (formats least) s.now) }
{
    let format = known_at(s, 0, least, FORMATS)?;
    let edition = known_at(s, format.next, 1, EDITIONS)?;
    let cut = fields::number_at(s, edition.next)?;
    Ok(Opened {
        header: Header {
            format: format.value,
            edition: edition.value,
            cut: cut.value,
        },
        first: Cursor {
            at: cut.next,
            floor: 0,
        },
    })
}

// The limit that a cut stands for.
pub fn limit_of(cut: u32) -> Limit
    ensures { result ≡ limit_of cut }
{
    if cut == 0 {
        None
    } else {
        Some((cut - 1) as usize)
    }
}
