// The rule of L: one function for each branch, and one for each compound test. What the letter's rule promises is the first of its
// cases that holds; a branch's function promises its tree (specs/Trees.antt), a test's its condition.
// Word and place stay two parameters, for speed: crates/spots. No two functions are one: each promises its own part of the definition.
#![tactic(auto, unfolding(rules::specs::Cond::holds, rules::specs::Told::text_of))]

ghost use Rattle.std.specs.Prelude.{◌≡◌, true};
ghost use Rattle.byte.specs.Text.{upper};
ghost use Rattle.rules.specs.CasesDL.{cases_l, condition_l0};
ghost use Rattle.rules.specs.Cond.{holds, plain};
ghost use Rattle.rules.specs.Told.{text_of, numbered, speaker};

use outcome::{Add, Spoken};

pub fn handle_l(w: &[u8], at: usize) -> Spoken
    ensures { result ≡ speaker (numbered cases_l) (upper w.now) at plain }
{
    if spots::char_ahead(w, at, 1, b'L') {
        if condition_l0(w, at) {
            // Spanish, "Cabrillo", "Gallegos": to the primary code alone
            let text = l0_text(w, at);
            Spoken::split(1, text, Add::One(b'L'), Add::Nothing, 1)
        } else {
            Spoken::both(2, 0, Add::One(b'L'), 1)
        }
    } else {
        Spoken::both(3, 0, Add::One(b'L'), 0)
    }
}

fn condition_l0(w: &[u8], at: usize) -> bool
    ensures { result ≡ holds condition_l0 (upper w.now) at plain }
{
    spots::from_end(w, at, 2) & (0 < at) & views::behind(w, at, 1, 4, b"ILLOILLAALLE")
        | (views::rear(w, 2, b"ASOS") | views::rear(w, 1, b"AO"))
            & views::behind(w, at, 1, 4, b"ALLE")
}

// An ALLE that the second half of the condition asks for is the third text of the first half.
fn l0_text(w: &[u8], at: usize) -> usize
    requires { holds condition_l0 (upper w.now) at plain ≡ true }
    ensures { result ≡ text_of condition_l0 (upper w.now) at }
{
    views::text_behind(w, at, 1, 4, b"ILLOILLAALLE")
}
