// The equality question: two words, a limit and a choice of code.
#![tactic(auto)]

ghost use Rattle.std.specs.Prelude.{◌≡◌, MatchResult};
ghost use Rattle.terms.specs.declared.Edition.TheVariants.{E1};
ghost use Rattle.demands.specs.Code.{code_of};
ghost use Rattle.demands.specs.Demand2.{Taken};
ghost use Rattle.equality.specs.Equality.{Refuses, Answered};

use answers::{Verdict, Word, WordRefusal};
use chosen::{Choice, chosen};
use encoder::Encoder;
use terms::{CODE_ROOM, Limit};

// The chosen code of a word, in lent room, or the word's refusal. CODE_ROOM is enough, so no buffer is found too short.
#[tactic(auto, using(crate::proofs::Asked::refuses))]
fn code_in<'a>(
    limit: Limit,
    choice: Choice,
    which: Word,
    word: &[u8],
    p: &'a mut [u8; CODE_ROOM],
    a: &'a mut [u8; CODE_ROOM],
) -> Result<&'a [u8], WordRefusal>
    ensures { MatchResult result (λ code. Taken word.now × (code.now ≡ code_of E1 limit choice word.now)) (λ refusal. Refuses which word.now refusal) }
{
    match Encoder::new(limit).encode(word, p, a) {
        Ok(coded) => Ok(chosen(choice, p, coded.primary, a, coded.alternate)),
        Err(refusal) => Err(WordRefusal {
            word: which,
            refusal,
        }),
    }
}

// Whether the codes are equal, or the first refusal: the first word is checked wholly before the second.
pub fn equal(limit: Limit, choice: Choice, one: &[u8], two: &[u8]) -> Verdict
    ensures { Answered limit choice one.now two.now result }
{
    let mut p = [0u8; CODE_ROOM];
    let mut a = [0u8; CODE_ROOM];
    let first = code_in(limit, choice, Word::First, one, &mut p, &mut a)?;
    let mut q = [0u8; CODE_ROOM];
    let mut b = [0u8; CODE_ROOM];
    let second = code_in(limit, choice, Word::Second, two, &mut q, &mut b)?;
    Ok(comparing::same_bytes(first, second))
}
