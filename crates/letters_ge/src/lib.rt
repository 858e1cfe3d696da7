// The rule of G that may be soft: one function for each branch, and one for each compound test. A branch's function promises its tree
// (specs/Trees.antt), a test's its condition.
// Word and place stay two parameters, for speed: crates/spots. No two functions are one: each promises its own part of the definition.
#![tactic(auto, unfolding(rules::specs::Cond::holds, rules::specs::Told::text_of))]

ghost use Rattle.std.specs.Prelude.{◌≡◌, not, eqb};
ghost use Rattle.std.proofs.Math.Option.{none, some};
ghost use Rattle.byte.specs.Text.{upper};
ghost use Rattle.rules.specs.CasesG.{biaggi, germanic};
ghost use Rattle.rules.specs.Cond.{holds, plain};
ghost use Rattle.rules.specs.Told.{text_of};
ghost use Rattle.rules.specs.Tree.{run};
ghost use Rattle.letters_ge.specs.Trees.{tree_ggi, tree_g_last};

use outcome::{Add, Spoken};

// G before neither H nor N, where neither `gli` nor `ger` holds: crates/letters_g asks those first.
pub fn handle_g_last(w: &[u8], at: usize) -> Spoken
    ensures { result ≡ run tree_g_last none (upper w.now) at plain }
{
    let text = biaggi_text(w, at);
    if text != 0 {
        handle_ggi(w, at, text)
    } else if spots::char_ahead(w, at, 1, b'G') {
        Spoken::both(16, 0, Add::One(b'K'), 1)
    } else {
        Spoken::both(17, 0, Add::One(b'K'), 0)
    }
}

fn handle_ggi(w: &[u8], at: usize, text: usize) -> Spoken
    requires tells { text ≡ text_of biaggi (upper w.now) at }
    requires held { text ≡ 0 → ⊥ }
    ensures { result ≡ run tree_ggi (some biaggi) (upper w.now) at plain }
{
    if is_germanic(w, at) {
        Spoken::both(13, text, Add::One(b'K'), 1)
    } else if views::ahead(w, at, 1, 3, b"IER") {
        Spoken::both(14, text, Add::One(b'J'), 1)
    } else {
        Spoken::split(15, text, Add::One(b'J'), Add::One(b'K'), 1)
    }
}

// Italian, "biaggi".
fn biaggi_text(w: &[u8], at: usize) -> usize
    ensures tells { result ≡ text_of biaggi (upper w.now) at }
    ensures holds { holds biaggi (upper w.now) at plain ≡ not (eqb result 0) }
{
    let next = views::text_ahead(w, at, 1, 1, b"EIY");
    if next != 0 {
        next
    } else {
        views::text_behind(w, at, 1, 4, b"AGGIOGGI")
    }
}

fn is_germanic(w: &[u8], at: usize) -> bool
    ensures { result ≡ holds germanic (upper w.now) at plain }
{
    views::front(w, 4, b"VAN VON ") | views::front(w, 3, b"SCH") | views::ahead(w, at, 1, 2, b"ET")
}
