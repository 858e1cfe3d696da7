// The rule of J: what it promises is the first of its cases that holds; the function of a compound test promises its condition.
// Word and place stay two parameters, for speed: crates/spots.
#![tactic(auto, unfolding(rules::specs::Cond::holds))]

ghost use Rattle.std.specs.Prelude.{◌≡◌};
ghost use Rattle.byte.specs.Text.{upper};
ghost use Rattle.rules.specs.CasesDL.{cases_j, spanish, spanish_h};
ghost use Rattle.rules.specs.Cond.{holds, marked, plain};
ghost use Rattle.rules.specs.Told.{numbered, speaker};

use outcome::{Add, Spoken};

pub fn handle_j(w: &[u8], at: usize, slavo: bool) -> Spoken
    ensures { result ≡ speaker (numbered cases_j) (upper w.now) at (marked slavo) }
{
    if is_spanish(w, at) {
        if is_spanish_h(w, at) {
            Spoken::both(1, 1, Add::One(b'H'), 0)
        } else {
            Spoken::split(2, 1, Add::One(b'J'), Add::One(b'H'), 0)
        }
    } else {
        letters_j_other::handle_j_other(w, at, slavo)
    }
}

// Obvious Spanish, "Jose", "San Jacinto".
fn is_spanish(w: &[u8], at: usize) -> bool
    ensures { result ≡ holds spanish (upper w.now) at plain }
{
    if views::ahead(w, at, 0, 4, b"JOSE") {
        true
    } else {
        views::front(w, 4, b"SAN ")
    }
}

fn is_spanish_h(w: &[u8], at: usize) -> bool
    ensures { result ≡ holds spanish_h (upper w.now) at plain }
{
    ((at == 0) & spots::char_ahead(w, at, 4, b' ') | spots::has_length(w, 4))
        | views::front(w, 4, b"SAN ")
}
