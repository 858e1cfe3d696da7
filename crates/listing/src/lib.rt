// The listing: for each visit of a word which case spoke, by which text, what it adds and passes over, as rows of seven numbers in lent
// room. The encoder is asked first: its refusals are the listing's, and its visits are the rows.
#![tactic(auto)]

ghost use Rattle.std.specs.Prelude.{◌≡◌, ◌≤◌, length};
ghost use Rattle.terms.specs.Limits.{word_limit};
ghost use Rattle.walk.specs.Word.{visits_of};
ghost use Rattle.row_writer.specs.Written.{edition_if, first_rows};
ghost use Rattle.listing.specs.Numbers.{unlisted_by, fault_of, place_of_refusal};
ghost use Rattle.listing.specs.Listing.{in_room, left_in, Explained};

use answers::{CallRefusal, Refusal};
use row::ROW;
use terms::{CODE_ROOM, Fault, Limit};

// Why there is no listing: the refusals 1, 2, 7 and 9.
#[derive(Clone, Copy, Debug, PartialEq, Eq)]
pub enum Unlisted {
    TooLong,
    NotAscii(usize),
    UnknownEdition,
    RoomShort,
}

impl Unlisted {
    // The place of the first byte that is no ASCII, and 0 where it isn't told.
    pub fn place(self) -> usize
        ensures { result ≡ place_of_refusal self }
    {
        match self {
            Unlisted::NotAscii(at) => at,
            Unlisted::TooLong | Unlisted::UnknownEdition | Unlisted::RoomShort => 0,
        }
    }
}

// The encoder's refusals are the listing's; a buffer that is too short is room that is.
impl From<CallRefusal> for Unlisted {
    ghost from_gives = { λ call r. r ≡ unlisted_by call };

    fn from(call: CallRefusal) -> Unlisted {
        match call {
            CallRefusal::UnknownEdition => Unlisted::UnknownEdition,
            CallRefusal::Refused(Refusal::TooLong) => Unlisted::TooLong,
            CallRefusal::Refused(Refusal::NotAscii(at)) => Unlisted::NotAscii(at),
            CallRefusal::Refused(Refusal::PrimaryShort | Refusal::AlternateShort) =>
                Unlisted::RoomShort,
        }
    }
}

impl From<Unlisted> for Fault {
    ghost from_gives = { λ refusal fault. fault ≡ fault_of refusal };

    fn from(refusal: Unlisted) -> Fault {
        match refusal {
            Unlisted::TooLong => Fault::TooLong,
            Unlisted::NotAscii(_) => Fault::NotAscii,
            Unlisted::UnknownEdition => Fault::NotKnown,
            Unlisted::RoomShort => Fault::NoRoom,
        }
    }
}

// How many rows, all written.
pub type Told = Result<usize, Unlisted>;

// The rows of the first visits, where all of them fit.
fn list(t: &[u8], second: bool, visits: usize, rows: &mut [u32]) -> Told
    requires { (length t.now ≤ word_limit) × (visits ≤ length (visits_of (edition_if second) t.now)) }
    ensures answer { result ≡ in_room (length rows.old) visits }
    ensures content { rows.new ≡ left_in (first_rows (edition_if second) visits t.now) rows.old }
{
    if rows.len() / ROW < visits {
        return Err(Unlisted::RoomShort);
    }
    row_writer::put_rows(t, second, visits, rows);
    Ok(visits)
}

// Writes the rows of a word's visits under an edition and a limit to the front of the room. CODE_ROOM is enough, so no buffer is found
// too short. The edition is any number: one that is not known is answered.
pub fn explain(edition: u64, limit: Limit, word: &[u8], rows: &mut [u32]) -> Told
    ensures { Explained edition limit word.now rows.old result rows.new }
{
    let mut primary = [0u8; CODE_ROOM];
    let mut alternate = [0u8; CODE_ROOM];
    let coded = editions::encode_in(edition, limit, word, &mut primary, &mut alternate)?;
    let second = terms::edition_of(edition).is_second();
    list(trimming::trimmed(word), second, coded.visits, rows)
}
