// The rule of H: one function for each branch, and one for each compound test. What the letter's rule promises is the first of its
// cases that holds; a branch's function promises its tree (specs/Trees.antt), a test's its condition.
// Word and place stay two parameters, for speed: crates/spots.
#![tactic(auto, unfolding(rules::specs::Cond::holds))]

ghost use Rattle.std.specs.Prelude.{◌≡◌};
ghost use Rattle.byte.specs.Text.{upper};
ghost use Rattle.rules.specs.CasesDL.{cases_h, before_vowel};
ghost use Rattle.rules.specs.Cond.{holds, plain};
ghost use Rattle.rules.specs.Told.{numbered, speaker};

use outcome::{Add, Spoken};

// Kept first before a vowel, or between two; this takes care of "HH" too.
pub fn handle_h(w: &[u8], at: usize) -> Spoken
    ensures { result ≡ speaker (numbered cases_h) (upper w.now) at plain }
{
    if is_before_vowel(w, at) {
        Spoken::both(1, 0, Add::One(b'H'), 1)
    } else {
        Spoken::both(2, 0, Add::Nothing, 0)
    }
}

fn is_before_vowel(w: &[u8], at: usize) -> bool
    ensures { result ≡ holds before_vowel (upper w.now) at plain }
{
    if (at == 0) | spots::vowel_behind(w, at, 1) {
        spots::vowel_ahead(w, at, 1)
    } else {
        false
    }
}
