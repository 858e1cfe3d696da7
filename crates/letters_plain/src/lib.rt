// The letters of one sound, and the vowels.
// Word and place stay two parameters, for speed: crates/spots.
#![tactic(auto)]

ghost use Rattle.std.specs.Prelude.{◌≡◌, cond, ◌+◌};
ghost use Rattle.byte.specs.Text.{upper};
ghost use Rattle.spots.specs.Spot.{byte_at};
ghost use Rattle.outcome.specs.Answers.{answer};
ghost use Rattle.rules.specs.Cond.{plain};
ghost use Rattle.rules.specs.Plain.{cases_vowel};
ghost use Rattle.outcome.specs.Answers.{spoke};
ghost use Rattle.rules.specs.Told.{numbered, speaker};
ghost use Rattle.outcome.specs.declared.Add.TheVariants.{One};

use outcome::{Add, Spoken};

// A vowel or Y gives A at place 0 only.
pub fn handle_vowel(w: &[u8], at: usize) -> Spoken
    ensures { result ≡ speaker (numbered cases_vowel) (upper w.now) at plain }
{
    if at == 0 {
        Spoken::both(1, 0, Add::One(b'A'), 0)
    } else {
        Spoken::both(2, 0, Add::Nothing, 0)
    }
}

// A letter of one sound, which swallows a doubled one.
pub fn handle_plain(w: &[u8], at: usize, letter: u8, sound: u8) -> Spoken
    ensures { result ≡ cond (byte_at (upper w.now) (at + 1) letter) (spoke 1 0 (answer (One sound) (One sound) 1)) (spoke 2 0 (answer (One sound) (One sound) 0)) }
{
    let doubled = spots::char_ahead(w, at, 1, letter);
    Spoken::either(1, doubled, 0, Add::One(sound), Add::One(sound))
}
