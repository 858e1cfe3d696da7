// The rule of S before C: one function for each branch, and one for each compound test. A branch's function promises its tree
// (specs/Trees.antt), a test's its condition.
// Word and place stay two parameters, for speed: crates/spots.
#![tactic(auto, unfolding(rules::specs::Cond::holds))]

ghost use Rattle.std.specs.Prelude.{◌≡◌, true};
ghost use Rattle.std.proofs.Math.Option.{some};
ghost use Rattle.byte.specs.Text.{upper};
ghost use Rattle.rules.specs.CasesS.{SC, SCH, first_sch};
ghost use Rattle.rules.specs.Cond.{holds, plain, ◌&◌};
ghost use Rattle.rules.specs.Tree.{run};
ghost use Rattle.letters_sc.specs.Trees.{tree_sc, tree_sch};

use outcome::{Add, Spoken};

// Two bytes are passed over even where one is left.
pub fn handle_sc(w: &[u8], at: usize) -> Spoken
    requires { holds SC (upper w.now) at plain ≡ true }
    ensures { result ≡ run tree_sc (some SC) (upper w.now) at plain }
{
    if spots::char_ahead(w, at, 2, b'H') {
        // Schlesinger's rule
        handle_sch(w, at)
    } else if views::ahead(w, at, 2, 1, b"IEY") {
        Spoken::both(13, 1, Add::One(b'S'), 2)
    } else {
        Spoken::both(14, 1, Add::Two(b'S', b'K'), 2)
    }
}

fn handle_sch(w: &[u8], at: usize) -> Spoken
    requires { holds (SC & SCH) (upper w.now) at plain ≡ true }
    ensures { result ≡ run tree_sch (some (SC & SCH)) (upper w.now) at plain }
{
    if views::ahead(w, at, 3, 2, b"OOERENUYEDEM") {
        // Dutch origin, "school", "schooner"
        if views::ahead(w, at, 3, 2, b"EREN") {
            // "schermerhorn", "schenker"
            Spoken::split(9, 1, Add::One(b'X'), Add::Two(b'S', b'K'), 2)
        } else {
            Spoken::both(10, 1, Add::Two(b'S', b'K'), 2)
        }
    } else if is_first_sch(w, at) {
        Spoken::split(11, 1, Add::One(b'X'), Add::One(b'S'), 2)
    } else {
        Spoken::both(12, 1, Add::One(b'X'), 2)
    }
}

fn is_first_sch(w: &[u8], at: usize) -> bool
    ensures { result ≡ holds first_sch (upper w.now) at plain }
{
    (at == 0) & !spots::vowel_ahead(w, 0, 3) & !spots::char_ahead(w, 0, 3, b'W')
}
