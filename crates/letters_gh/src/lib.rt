// The rule of G before H: one function for each branch, and one for each compound test. A branch's function promises its tree
// (specs/Trees.antt), a test's its condition.
// Word and place stay two parameters, for speed: crates/spots. No two functions are one: each promises its own part of the definition.
#![tactic(auto, unfolding(rules::specs::Cond::holds, rules::specs::Told::text_of))]

ghost use Rattle.std.specs.Prelude.{◌≡◌, not, eqb};
ghost use Rattle.std.proofs.Math.Option.{some};
ghost use Rattle.byte.specs.Text.{upper};
ghost use Rattle.rules.specs.CasesG.{after_consonant, parker, laugh, after_other, Gh};
ghost use Rattle.rules.specs.Cond.{holds, plain};
ghost use Rattle.rules.specs.Told.{text_of};
ghost use Rattle.rules.specs.Tree.{run};
ghost use Rattle.letters_gh.specs.Trees.{tree_gh, tree_gh_later};

use outcome::{Add, Spoken};

pub fn handle_gh(w: &[u8], at: usize) -> Spoken
    ensures { result ≡ run tree_gh (some Gh) (upper w.now) at plain }
{
    if is_after_consonant(w, at) {
        Spoken::both(1, 0, Add::One(b'K'), 1)
    } else if at == 0 {
        if spots::char_ahead(w, at, 2, b'I') {
            Spoken::both(2, 0, Add::One(b'J'), 1)
        } else {
            Spoken::both(3, 0, Add::One(b'K'), 1)
        }
    } else {
        handle_gh_later(w, at)
    }
}

// Gh behind a vowel.
fn handle_gh_later(w: &[u8], at: usize) -> Spoken
    ensures { result ≡ run tree_gh_later (some Gh) (upper w.now) at plain }
{
    let text = parker_text(w, at);
    if text != 0 {
        Spoken::both(4, text, Add::Nothing, 1)
    } else if is_laugh(w, at) {
        let text = views::text_behind(w, at, 3, 1, b"CGLRT");
        Spoken::both(5, text, Add::One(b'F'), 1)
    } else if is_after_other(w, at) {
        Spoken::both(6, 0, Add::One(b'K'), 1)
    } else {
        Spoken::both(7, 0, Add::Nothing, 1)
    }
}

fn is_after_consonant(w: &[u8], at: usize) -> bool
    ensures { result ≡ holds after_consonant (upper w.now) at plain }
{
    (0 < at) & !spots::vowel_behind(w, at, 1)
}

// Parker's rule, "hugh".
fn parker_text(w: &[u8], at: usize) -> usize
    ensures tells { result ≡ text_of parker (upper w.now) at }
    ensures holds { holds parker (upper w.now) at plain ≡ not (eqb result 0) }
{
    let second = views::text_behind(w, at, 2, 1, b"BHD");
    let third = views::text_behind(w, at, 3, 1, b"BHD");
    let fourth = views::text_behind(w, at, 4, 1, b"BH");
    outcome::or_else(outcome::or_else(second, third), fourth)
}

// "laugh", "McLaughlin", "cough", "gough", "rough", "tough".
fn is_laugh(w: &[u8], at: usize) -> bool
    ensures { result ≡ holds laugh (upper w.now) at plain }
{
    (2 < at) & spots::char_behind(w, at, 1, b'U') & views::behind(w, at, 3, 1, b"CGLRT")
}

fn is_after_other(w: &[u8], at: usize) -> bool
    ensures { result ≡ holds after_other (upper w.now) at plain }
{
    (0 < at) & !spots::char_behind(w, at, 1, b'I')
}
