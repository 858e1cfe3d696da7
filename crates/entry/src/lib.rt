// One record of a station key book, read at any place: its kind, its station, its name and its codes. Its faults: a name that the encoder
// refuses, a number in a bad form, the book ends inside something, unknown kind, station not above the one before.
// A place stands beside the book, and the floor beside it: a record is read at any place, behind its kind too.
#![tactic(auto)]

ghost use Rattle.std.specs.Prelude.{◌≡◌, drop};
ghost use Rattle.fields.specs.Field.{read_number, read_text, any};
ghost use Rattle.fields.specs.Got.{read_both};
ghost use Rattle.fields.specs.Told.{field_at, value_at};
ghost use Rattle.entry.specs.Entry.{rising, read_record, read_kind, read_entry};
ghost use Rattle.entry.specs.Kinds.{number_of, kind_of, kind_named};
ghost use Rattle.entry.specs.Told.{codes_at, body_at, record_at};

use fields::Field;
use header::Cursor;
use slices::Span;
use terms::Fault;

// A closed record is skipped by whoever lists a book.
#[derive(Clone, Copy, Debug, PartialEq, Eq)]
pub enum Kind {
    Closed,
    Live,
}

// The number that format 2 spells before a record.
impl From<Kind> for u32 {
    ghost from_gives = { λ kind n. n ≡ number_of kind };

    fn from(kind: Kind) -> u32 {
        match kind {
            Kind::Closed => 0,
            Kind::Live => 1,
        }
    }
}

impl TryFrom<u32> for Kind {
    type Error = Fault;

    ghost try_from_gives = { λ n named. named ≡ kind_named n };

    fn try_from(n: u32) -> Result<Self, Fault> {
        match n {
            0 => Ok(Kind::Closed),
            1 => Ok(Kind::Live),
            _ => Err(Fault::NotKnown),
        }
    }
}

// Where both codes of a record lie.
#[derive(Clone, Copy)]
pub struct Codes {
    pub primary: Span,
    pub alternate: Span,
}

// A record as it lies in its book, and the cursor behind it.
#[derive(Clone, Copy)]
pub struct Record {
    pub kind: Kind,
    pub station: u32,
    pub name: Span,
    pub primary: Span,
    pub alternate: Span,
    pub next: Cursor,
}

fn station_at(s: &[u8], at: usize, floor: u32) -> Result<Field<u32>, Fault>
    ensures { result ≡ value_at at (read_number (rising floor) (drop at s.now)) }
{
    let found = fields::number_at(s, at)?;
    if found.value < floor {
        return Err(Fault::NotAbove);
    }
    Ok(found)
}

fn codes_at(s: &[u8], at: usize) -> Result<Field<Codes>, Fault>
    ensures { result ≡ codes_at at (read_both (read_text any any) (read_text any any) (drop at s.now)) }
{
    let primary = fields::text_at(s, at)?;
    let alternate = fields::text_at(s, primary.next)?;
    Ok(Field {
        value: Codes {
            primary: primary.value,
            alternate: alternate.value,
        },
        next: alternate.next,
    })
}

// The record behind its kind.
fn body_at(s: &[u8], at: usize, kind: Kind, floor: u32) -> Result<Record, Fault>
    ensures { result ≡ body_at kind at (read_record floor (drop at s.now)) }
{
    let station = station_at(s, at, floor)?;
    let name = name::name_at(s, station.next)?;
    let codes = codes_at(s, name.next)?;
    Ok(Record {
        kind,
        station: station.value,
        name: name.value,
        primary: codes.value.primary,
        alternate: codes.value.alternate,
        next: Cursor {
            at: codes.next,
            floor: station.value + 1,
        },
    })
}

// The kind at a place. Format 1 spells none: its records are live.
fn kind_at(s: &[u8], at: usize, format: u32) -> Result<Field<Kind>, Fault>
    ensures { result ≡ field_at kind_of at (read_kind format (drop at s.now)) }
{
    if format == 1 {
        return Ok(Field {
            value: Kind::Live,
            next: at,
        });
    }
    let found = fields::number_at(s, at)?;
    let value = Kind::try_from(found.value)?;
    Ok(Field {
        value,
        next: found.next,
    })
}

// The record at any place, with its kind; its station must be at least `floor`.
pub fn record_at(s: &[u8], at: usize, format: u32, floor: u32) -> Result<Record, Fault>
    ensures { result ≡ record_at format at (read_entry format floor (drop at s.now)) }
{
    let kind = kind_at(s, at, format)?;
    body_at(s, kind.next, kind.value, floor)
}
