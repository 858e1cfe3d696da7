// The rule of R: one function for each branch, and one for each compound test. What the letter's rule promises is the first of its
// cases that holds; a branch's function promises its tree (specs/Trees.antt), a test's its condition.
// Word and place stay two parameters, for speed: crates/spots.
#![tactic(auto, unfolding(rules::specs::Cond::holds))]

ghost use Rattle.std.specs.Prelude.{◌≡◌};
ghost use Rattle.byte.specs.Text.{upper};
ghost use Rattle.rules.specs.CasesMZ.{cases_r, rogier};
ghost use Rattle.rules.specs.Cond.{holds, marked};
ghost use Rattle.rules.specs.Told.{numbered, speaker};

use outcome::{Add, Spoken};

pub fn handle_r(w: &[u8], at: usize, slavo: bool) -> Spoken
    ensures { result ≡ speaker (numbered cases_r) (upper w.now) at (marked slavo) }
{
    let doubled = spots::char_ahead(w, at, 1, b'R');
    if is_rogier(w, at, slavo) {
        // French, "Rogier": to the alternate code alone
        Spoken::either(1, doubled, 1, Add::Nothing, Add::One(b'R'))
    } else {
        Spoken::either(3, doubled, 0, Add::One(b'R'), Add::One(b'R'))
    }
}

fn is_rogier(w: &[u8], at: usize, slavo: bool) -> bool
    ensures { result ≡ holds rogier (upper w.now) at (marked slavo) }
{
    if (3 < at) & spots::from_end(w, at, 0) & !slavo {
        views::behind(w, at, 2, 2, b"IE") & !views::behind(w, at, 4, 2, b"MEMA")
    } else {
        false
    }
}
