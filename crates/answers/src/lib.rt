// What the encoder and the equality question answer, and each answer as a host's numbers.
#![tactic(auto)]

ghost use Rattle.std.specs.Prelude.{◌≡◌};
ghost use Rattle.answers.specs.Answers.{number_of_refusal, place_of_refusal, fault_of};
ghost use Rattle.answers.specs.Verdicts.{number_of_word};
ghost use Rattle.answers.specs.declared.CallRefusal.TheVariants as call;
ghost use Rattle.answers.specs.Numbers.{answer_numbers, reply_numbers, verdict_numbers};

use terms::{Fault, UnknownEdition};

// What an accepted word gets: the length of each code, and the visits of its walk.
#[derive(Clone, Copy, Debug, PartialEq, Eq)]
pub struct Coded {
    pub primary: usize,
    pub alternate: usize,
    pub visits: usize,
}

// The refusals 1 to 4 of document 01, in its order; the place is that of the first byte that is no ASCII.
#[derive(Clone, Copy, Debug, PartialEq, Eq)]
pub enum Refusal {
    TooLong,
    NotAscii(usize),
    PrimaryShort,
    AlternateShort,
}

impl Refusal {
    // The place of the first byte that is no ASCII, and 0 where it isn't told.
    pub fn place(self) -> usize
        ensures { result ≡ place_of_refusal self }
    {
        match self {
            Refusal::NotAscii(at) => at,
            Refusal::TooLong | Refusal::PrimaryShort | Refusal::AlternateShort => 0,
        }
    }
}

// Document 01's number of a refusal.
impl From<Refusal> for u8 {
    ghost from_gives = { λ refusal n. n ≡ number_of_refusal refusal };

    fn from(refusal: Refusal) -> u8 {
        match refusal {
            Refusal::TooLong => 1,
            Refusal::NotAscii(_) => 2,
            Refusal::PrimaryShort => 3,
            Refusal::AlternateShort => 4,
        }
    }
}

// The fault of document 02 for a refused word: it has one for a buffer that is too short.
impl From<Refusal> for Fault {
    ghost from_gives = { λ refusal fault. fault ≡ fault_of refusal };

    fn from(refusal: Refusal) -> Fault {
        match refusal {
            Refusal::TooLong => Fault::TooLong,
            Refusal::NotAscii(_) => Fault::NotAscii,
            Refusal::PrimaryShort | Refusal::AlternateShort => Fault::NoRoom,
        }
    }
}

pub type Answer = Result<Coded, Refusal>;

// Why a call that names its edition by a number is refused: 7, or a refusal under that edition.
#[derive(Clone, Copy, Debug, PartialEq, Eq)]
pub enum CallRefusal {
    UnknownEdition,
    Refused(Refusal),
}

impl From<UnknownEdition> for CallRefusal {
    ghost from_gives = { λ unknown r. r ≡ call.UnknownEdition };

    fn from(_unknown: UnknownEdition) -> CallRefusal {
        CallRefusal::UnknownEdition
    }
}

impl From<Refusal> for CallRefusal {
    ghost from_gives = { λ refusal r. r ≡ call.Refused refusal };

    fn from(refusal: Refusal) -> CallRefusal {
        CallRefusal::Refused(refusal)
    }
}

pub type Reply = Result<Coded, CallRefusal>;

// The words of the equality question.
#[derive(Clone, Copy, Debug, PartialEq, Eq)]
pub enum Word {
    First,
    Second,
}

// Document 01's number of a word.
impl From<Word> for u8 {
    ghost from_gives = { λ word n. n ≡ number_of_word word };

    fn from(word: Word) -> u8 {
        match word {
            Word::First => 1,
            Word::Second => 2,
        }
    }
}

// Which word the equality question refuses, and why.
#[derive(Clone, Copy, Debug, PartialEq, Eq)]
pub struct WordRefusal {
    pub word: Word,
    pub refusal: Refusal,
}

// Whether the codes are equal.
pub type Verdict = Result<bool, WordRefusal>;

// Number, place, both lengths and visits.
pub fn tell_answer(answer: Answer, out: &mut [u64; 5])
    ensures { out.new ≡ answer_numbers answer }
{
    *out = match answer {
        Ok(coded) => [
            0,
            0,
            coded.primary as u64,
            coded.alternate as u64,
            coded.visits as u64,
        ],
        Err(refusal) => [u8::from(refusal) as u64, refusal.place() as u64, 0, 0, 0],
    };
}

// The same, and 7 for an edition that is not known.
pub fn tell_reply(reply: Reply, out: &mut [u64; 5])
    ensures { out.new ≡ reply_numbers reply }
{
    match reply {
        Ok(coded) => tell_answer(Ok(coded), out),
        Err(CallRefusal::Refused(refusal)) => tell_answer(Err(refusal), out),
        Err(CallRefusal::UnknownEdition) => *out = [7, 0, 0, 0, 0],
    }
}

// Number, which word, place, and 1 for equal.
pub fn tell_verdict(verdict: Verdict, out: &mut [u64; 4])
    ensures { out.new ≡ verdict_numbers verdict }
{
    *out = match verdict {
        Ok(equal) => [0, 0, 0, equal as u64],
        Err(WordRefusal { word, refusal }) => [
            u8::from(refusal) as u64,
            u8::from(word) as u64,
            refusal.place() as u64,
            0,
        ],
    };
}
