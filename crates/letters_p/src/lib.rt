// The rule of P: one function for each branch, and one for each compound test. What the letter's rule promises is the first of its
// cases that holds; a branch's function promises its tree (specs/Trees.antt), a test's its condition.
// Word and place stay two parameters, for speed: crates/spots.
#![tactic(auto)]

ghost use Rattle.std.specs.Prelude.{◌≡◌};
ghost use Rattle.byte.specs.Text.{upper};
ghost use Rattle.rules.specs.CasesMZ.{cases_p};
ghost use Rattle.rules.specs.Cond.{plain};
ghost use Rattle.rules.specs.Told.{numbered, speaker};

use outcome::{Add, Spoken};

pub fn handle_p(w: &[u8], at: usize) -> Spoken
    ensures { result ≡ speaker (numbered cases_p) (upper w.now) at plain }
{
    if spots::char_ahead(w, at, 1, b'H') {
        Spoken::both(1, 0, Add::One(b'F'), 1)
    } else {
        let text = views::text_ahead(w, at, 1, 1, b"PB");
        Spoken::either(2, text != 0, text, Add::One(b'P'), Add::One(b'P'))
    }
}
