// The rule of G before N: one function for each branch, and one for each compound test. A branch's function promises its tree
// (specs/Trees.antt), a test's its condition.
// Word and place stay two parameters, for speed: crates/spots. No two functions are one: each promises its own part of the definition.
#![tactic(auto, unfolding(rules::specs::Cond::holds))]

ghost use Rattle.std.specs.Prelude.{◌≡◌, true};
ghost use Rattle.std.proofs.Math.Option.{some};
ghost use Rattle.byte.specs.Text.{upper};
ghost use Rattle.rules.specs.CasesG.{GN, gn_second, gn_other};
ghost use Rattle.rules.specs.Cond.{holds, marked, plain};
ghost use Rattle.rules.specs.Tree.{run};
ghost use Rattle.letters_gn.specs.Trees.{tree_gn};

use outcome::{Add, Spoken};

pub fn handle_gn(w: &[u8], at: usize, slavo: bool) -> Spoken
    requires { holds GN (upper w.now) at plain ≡ true }
    ensures { result ≡ run tree_gn (some GN) (upper w.now) at (marked slavo) }
{
    if is_gn_second(w, at, slavo) {
        Spoken::split(8, 0, Add::Two(b'K', b'N'), Add::One(b'N'), 1)
    } else if is_gn_other(w, at, slavo) {
        Spoken::split(9, 0, Add::One(b'N'), Add::Two(b'K', b'N'), 1)
    } else {
        Spoken::both(10, 0, Add::Two(b'K', b'N'), 1)
    }
}

fn is_gn_second(w: &[u8], at: usize, slavo: bool) -> bool
    ensures { result ≡ holds gn_second (upper w.now) at (marked slavo) }
{
    (at == 1) & spots::vowel_ahead(w, 0, 0) & !slavo
}

// The Rust asks whether the byte ahead is no Y; it is N.
fn is_gn_other(w: &[u8], at: usize, slavo: bool) -> bool
    requires { holds GN (upper w.now) at plain ≡ true }
    ensures { result ≡ holds gn_other (upper w.now) at (marked slavo) }
{
    !views::ahead(w, at, 2, 2, b"EY") & !slavo
}
