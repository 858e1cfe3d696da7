// The rule of X: one function for each branch, and one for each compound test. What the letter's rule promises is the first of its
// cases that holds; a branch's function promises its tree (specs/Trees.antt), a test's its condition.
// Word and place stay two parameters, for speed: crates/spots.
#![tactic(auto)]

ghost use Rattle.std.specs.Prelude.{◌≡◌};
ghost use Rattle.std.proofs.Math.Option.{none};
ghost use Rattle.byte.specs.Text.{upper};
ghost use Rattle.rules.specs.CasesMZ.{cases_x, breaux};
ghost use Rattle.rules.specs.Cond.{holds, non, plain};
ghost use Rattle.rules.specs.Told.{numbered, speaker};
ghost use Rattle.rules.specs.Tree.{run};
ghost use Rattle.letters_x.specs.Trees.{tree_x_later};

use outcome::{Add, Spoken};

pub fn handle_x(w: &[u8], at: usize) -> Spoken
    ensures { result ≡ speaker (numbered cases_x) (upper w.now) at plain }
{
    if at == 0 {
        Spoken::both(1, 0, Add::One(b'S'), 0)
    } else {
        handle_x_later(w, at)
    }
}

fn handle_x_later(w: &[u8], at: usize) -> Spoken
    ensures { result ≡ run tree_x_later none (upper w.now) at plain }
{
    let text = views::text_ahead(w, at, 1, 1, b"CX");
    if is_sounded(w, at) {
        Spoken::either(
            2,
            text != 0,
            text,
            Add::Two(b'K', b'S'),
            Add::Two(b'K', b'S'),
        )
    } else {
        Spoken::either(4, text != 0, text, Add::Nothing, Add::Nothing)
    }
}

// All but a French ending, "breaux".
fn is_sounded(w: &[u8], at: usize) -> bool
    ensures { result ≡ holds (non breaux) (upper w.now) at plain }
{
    if spots::from_end(w, at, 0) {
        !((2 < at) & views::behind(w, at, 3, 3, b"IAUEAU")
            | (1 < at) & views::behind(w, at, 2, 2, b"AUOU"))
    } else {
        true
    }
}
