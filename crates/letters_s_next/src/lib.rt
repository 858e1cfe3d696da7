// The rule of S that is not silent, and before no H, IO or IA: one function for each branch, and one for each compound test. A branch's
// function promises its tree (specs/Trees.antt), a test's its condition.
// Word and place stay two parameters, for speed: crates/spots. No two functions are one: each promises its own part of the definition.
#![tactic(auto, unfolding(rules::specs::Cond::holds, rules::specs::Told::text_of))]

ghost use Rattle.std.specs.Prelude.{◌≡◌, true, [], ◌∷◌};
ghost use Rattle.std.proofs.Math.Option.{none};
ghost use Rattle.byte.specs.Text.{upper};
ghost use Rattle.rules.specs.CasesS.{smith, artois};
ghost use Rattle.rules.specs.Cond.{holds, plain, window, ahead, ◌&◌};
ghost use Rattle.rules.specs.Told.{text_of};
ghost use Rattle.rules.specs.Tree.{run};
ghost use Rattle.letters_s_next.specs.Trees.{tree_s_next, tree_s_last};

use outcome::{Add, Spoken};

// S that is not silent, and before no H, IO or IA.
pub fn handle_s_next(w: &[u8], at: usize) -> Spoken
    ensures { result ≡ run tree_s_next none (upper w.now) at plain }
{
    if is_smith(w, at) {
        let text = smith_text(w, at);
        let z = views::ahead(w, at, 1, 1, b"Z");
        Spoken::either(7, z, text, Add::One(b'S'), Add::One(b'X'))
    } else if views::ahead(w, at, 0, 2, b"SC") {
        letters_sc::handle_sc(w, at)
    } else {
        handle_s_last(w, at)
    }
}

// S where no test of handle_s_next holds either.
fn handle_s_last(w: &[u8], at: usize) -> Spoken
    ensures { result ≡ run tree_s_last none (upper w.now) at plain }
{
    if is_artois(w, at) {
        let text = artois_text(w, at);
        let doubled = views::ahead(w, at, 1, 1, b"SZ");
        Spoken::either(15, doubled, text, Add::Nothing, Add::One(b'S'))
    } else {
        let text = views::text_ahead(w, at, 1, 1, b"SZ");
        Spoken::either(17, text != 0, text, Add::One(b'S'), Add::One(b'S'))
    }
}

// German and its anglicised forms ("smith", "schmidt"; "snider", "schneider"), and -sz- in Slavic languages.
fn is_smith(w: &[u8], at: usize) -> bool
    ensures { result ≡ holds smith (upper w.now) at plain }
{
    (at == 0) & views::ahead(w, at, 1, 1, b"MNLW") | views::ahead(w, at, 1, 1, b"Z")
}

// The Z that tells S's cases 7 and 8 apart tells nothing more.
fn smith_text(w: &[u8], at: usize) -> usize
    ensures tells { result ≡ text_of smith (upper w.now) at }
    ensures z { result ≡ text_of (smith & window (ahead 1) 1 ("Z" ∷ [])) (upper w.now) at }
{
    let first = views::text_ahead(w, at, 1, 1, b"MNLW");
    let z = views::text_ahead(w, at, 1, 1, b"Z");
    outcome::or_else(first, z)
}

fn artois_text(w: &[u8], at: usize) -> usize
    requires { holds artois (upper w.now) at plain ≡ true }
    ensures tells { result ≡ text_of artois (upper w.now) at }
    ensures held { result ≡ 0 → ⊥ }
{
    views::text_behind(w, at, 2, 2, b"AIOI")
}

// French, "resnais", "artois".
fn is_artois(w: &[u8], at: usize) -> bool
    ensures { result ≡ holds artois (upper w.now) at plain }
{
    if (1 < at) & spots::from_end(w, at, 0) {
        views::behind(w, at, 2, 2, b"AIOI")
    } else {
        false
    }
}
