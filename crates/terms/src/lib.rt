// What the documents fix once: the faults and their numbers, how long a word and a code may be, which formats and editions are known, and
// which a new book carries.
#![tactic(auto)]

ghost use Rattle.std.specs.Prelude.{◌≡◌};
ghost use Rattle.terms.specs.Faults.{number_of};
ghost use Rattle.terms.specs.Editions.{is_second, edition_of, named_by};

use std::fmt;

// The faults of documents 01 and 02 that a book, a join or a listing may show.
#[derive(Clone, Copy, Debug, PartialEq, Eq)]
pub enum Fault {
    TooLong,
    NotAscii,
    // A number in a bad form, or none that a book can hold.
    BadNumber,
    // The book ends inside something.
    BookEnds,
    // A format, an edition or a kind that is not known.
    NotKnown,
    // A station that is not above the one before.
    NotAbove,
    // Lent room or scratch that is too short.
    NoRoom,
    EditionsDiffer,
    // No live record of the station.
    NoLive,
}

// The documents' number of a fault.
impl From<Fault> for u8 {
    ghost from_gives = { λ fault n. n ≡ number_of fault };

    fn from(fault: Fault) -> u8 {
        match fault {
            Fault::TooLong => 1,
            Fault::NotAscii => 2,
            Fault::BadNumber => 5,
            Fault::BookEnds => 6,
            Fault::NotKnown => 7,
            Fault::NotAbove => 8,
            Fault::NoRoom => 9,
            Fault::EditionsDiffer => 10,
            Fault::NoLive => 11,
        }
    }
}

// The longest word that is taken, before trimming.
pub const WORD_LIMIT: usize = 1024;

// A code of any accepted word has room here, whatever the limit.
pub const CODE_ROOM: usize = 2 * WORD_LIMIT - 1;

// How many bytes a code may have; `None` puts no bound.
pub type Limit = Option<usize>;

// The editions of the rules: the first is the Rust's, the second reads one test of C otherwise (crates/rules/specs/CasesC.antt).
#[derive(Clone, Copy, Debug, PartialEq, Eq)]
pub enum Edition {
    E1,
    E2,
}

impl Edition {
    pub fn is_second(self) -> bool
        ensures { result ≡ is_second self }
    {
        matches!(self, Edition::E2)
    }
}

// The edition of a known number. It answers any number, as it always did; where one may be unknown, TryFrom refuses it.
pub fn edition_of(number: u64) -> Edition
    ensures { result ≡ edition_of number }
{
    if number == 1 {
        Edition::E1
    } else {
        Edition::E2
    }
}

// A number that names no edition.
#[derive(Clone, Copy, Debug, PartialEq, Eq)]
pub struct UnknownEdition;

impl TryFrom<u64> for Edition {
    type Error = UnknownEdition;

    ghost try_from_gives = { λ number named. named ≡ named_by number };

    fn try_from(number: u64) -> Result<Self, UnknownEdition> {
        match number {
            1 => Ok(Edition::E1),
            2 => Ok(Edition::E2),
            _ => Err(UnknownEdition),
        }
    }
}

impl fmt::Display for UnknownEdition {
    ghost use Rattle.std.specs.Prelude.{Some, codes};

    ghost output = { λ _. Some (codes "no edition has this number") };

    fn fmt<W: fmt::Write>(&self, f: &mut fmt::Formatter<W>) -> fmt::Result {
        f.write_str("no edition has this number")
    }
}

// The formats and the editions that are known are those from 1 up to these.
pub const FORMATS: u32 = 2;

pub const EDITIONS: u32 = 2;

// A new book carries these.
pub const NEW_FORMAT: u32 = 2;

pub const NEW_EDITION: u32 = 2;
