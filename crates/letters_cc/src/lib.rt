// The rule of a double C: one function for each branch, and one for each compound test. A branch's function promises its tree
// (specs/Trees.antt), a test's its condition.
// Word and place stay two parameters, for speed: crates/spots.
#![tactic(auto, unfolding(rules::specs::Cond::holds))]

ghost use Rattle.std.specs.Prelude.{◌≡◌, true};
ghost use Rattle.std.proofs.Math.Option.{some};
ghost use Rattle.byte.specs.Text.{upper};
ghost use Rattle.rules.specs.CasesC.{double_c, bellocchio, accede};
ghost use Rattle.rules.specs.Cond.{holds, plain};
ghost use Rattle.rules.specs.Tree.{run};
ghost use Rattle.letters_cc.specs.Trees.{tree_cc};

use outcome::{Add, Spoken};

pub fn handle_cc(w: &[u8], at: usize) -> Spoken
    requires { holds double_c (upper w.now) at plain ≡ true }
    ensures { result ≡ run tree_cc (some double_c) (upper w.now) at plain }
{
    if is_bellocchio(w, at) {
        if is_accede(w, at) {
            Spoken::both(10, 1, Add::Two(b'K', b'S'), 2)
        } else {
            // "bacci", "bertucci", other Italian
            Spoken::both(11, 1, Add::One(b'X'), 2)
        }
    } else {
        // Pierce's rule
        Spoken::both(12, 1, Add::One(b'K'), 1)
    }
}

// "bellocchio" but not "bacchus".
fn is_bellocchio(w: &[u8], at: usize) -> bool
    ensures { result ≡ holds bellocchio (upper w.now) at plain }
{
    views::ahead(w, at, 2, 1, b"IEH") & !views::ahead(w, at, 2, 2, b"HU")
}

// "accident", "accede", "succeed".
fn is_accede(w: &[u8], at: usize) -> bool
    ensures { result ≡ holds accede (upper w.now) at plain }
{
    (at == 1) & spots::char_behind(w, at, 1, b'A') | views::behind(w, at, 1, 5, b"UCCEEUCCES")
}
