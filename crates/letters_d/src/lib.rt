// The rule of D: one function for each branch, and one for each compound test. What the letter's rule promises is the first of its
// cases that holds; a branch's function promises its tree (specs/Trees.antt), a test's its condition.
// Word and place stay two parameters, for speed: crates/spots. No two functions are one: each promises its own part of the definition.
#![tactic(auto)]

ghost use Rattle.std.specs.Prelude.{◌≡◌};
ghost use Rattle.byte.specs.Text.{upper};
ghost use Rattle.rules.specs.CasesDL.{cases_d};
ghost use Rattle.rules.specs.Cond.{plain};
ghost use Rattle.rules.specs.Told.{numbered, speaker};

use outcome::{Add, Spoken};

pub fn handle_d(w: &[u8], at: usize) -> Spoken
    ensures { result ≡ speaker (numbered cases_d) (upper w.now) at plain }
{
    if views::ahead(w, at, 1, 1, b"DGT") {
        handle_d_before(w, at)
    } else {
        Spoken::both(4, 0, Add::One(b'T'), 0)
    }
}

// D before a byte that some case asks for.
fn handle_d_before(w: &[u8], at: usize) -> Spoken
    ensures { result ≡ speaker (numbered cases_d) (upper w.now) at plain }
{
    if views::ahead(w, at, 0, 2, b"DG") {
        if views::ahead(w, at, 2, 1, b"IEY") {
            Spoken::both(1, 1, Add::One(b'J'), 2)
        } else {
            Spoken::both(2, 1, Add::Two(b'T', b'K'), 1)
        }
    } else {
        let text = views::text_ahead(w, at, 0, 2, b"DTDD");
        if text != 0 {
            Spoken::both(3, text, Add::One(b'T'), 1)
        } else {
            Spoken::both(4, 0, Add::One(b'T'), 0)
        }
    }
}
