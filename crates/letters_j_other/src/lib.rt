// The rule of J in no Spanish name. The branch's function promises its tree (specs/Trees.antt), a test's its condition.
// Word and place stay two parameters, for speed: crates/spots.
#![tactic(auto, unfolding(rules::specs::Cond::holds))]

ghost use Rattle.std.specs.Prelude.{◌≡◌, false};
ghost use Rattle.std.proofs.Math.Option.{none};
ghost use Rattle.byte.specs.Text.{upper};
ghost use Rattle.rules.specs.CasesDL.{spanish, between_vowels, plain_j};
ghost use Rattle.rules.specs.Cond.{holds, marked, plain};
ghost use Rattle.rules.specs.Tree.{run};
ghost use Rattle.letters_j_other.specs.Trees.{tree_j_other};

use outcome::{Add, Spoken};

// J in no Spanish name, so in no JOSE, which the Rust asks again where J stands first.
pub fn handle_j_other(w: &[u8], at: usize, slavo: bool) -> Spoken
    requires { holds spanish (upper w.now) at plain ≡ false }
    ensures { result ≡ run tree_j_other none (upper w.now) at (marked slavo) }
{
    let doubled = spots::char_ahead(w, at, 1, b'J');
    if at == 0 {
        Spoken::either(3, doubled, 0, Add::One(b'J'), Add::One(b'A'))
    } else if is_between_vowels(w, at, slavo) {
        Spoken::either(5, doubled, 0, Add::One(b'J'), Add::One(b'H'))
    } else if spots::from_end(w, at, 0) {
        Spoken::either(7, doubled, 0, Add::One(b'J'), Add::One(b' '))
    } else if is_plain_j(w, at) {
        Spoken::either(9, doubled, 0, Add::One(b'J'), Add::One(b'J'))
    } else {
        Spoken::either(11, doubled, 0, Add::Nothing, Add::Nothing)
    }
}

fn is_between_vowels(w: &[u8], at: usize, slavo: bool) -> bool
    ensures { result ≡ holds between_vowels (upper w.now) at (marked slavo) }
{
    (0 < at)
        & spots::vowel_behind(w, at, 1)
        & !slavo
        & (spots::char_ahead(w, at, 1, b'A') | spots::char_ahead(w, at, 1, b'O'))
}

fn is_plain_j(w: &[u8], at: usize) -> bool
    ensures { result ≡ holds plain_j (upper w.now) at plain }
{
    !views::ahead(w, at, 1, 1, b"LTKSNMBZ") & ((at == 0) | !views::behind(w, at, 1, 1, b"SKL"))
}
