// The rule of W: one function for each branch, and one for each compound test. What the letter's rule promises is the first of its
// cases that holds; a branch's function promises its tree (specs/Trees.antt), a test's its condition.
// Word and place stay two parameters, for speed: crates/spots. No two functions are one: each promises its own part of the definition.
#![tactic(auto, unfolding(rules::specs::Cond::holds, rules::specs::Told::text_of))]

ghost use Rattle.std.specs.Prelude.{◌≡◌};
ghost use Rattle.std.proofs.Math.Option.{some};
ghost use Rattle.byte.specs.Text.{upper};
ghost use Rattle.rules.specs.CasesMZ.{cases_w, first_w, arnow};
ghost use Rattle.rules.specs.Cond.{holds, plain};
ghost use Rattle.rules.specs.Told.{text_of, numbered, speaker};
ghost use Rattle.rules.specs.Tree.{run};
ghost use Rattle.letters_w.specs.Trees.{tree_first_w};

use outcome::{Add, Spoken};

pub fn handle_w(w: &[u8], at: usize) -> Spoken
    ensures { result ≡ speaker (numbered cases_w) (upper w.now) at plain }
{
    if views::ahead(w, at, 0, 2, b"WR") {
        // also in the middle of a word
        Spoken::both(1, 1, Add::One(b'R'), 1)
    } else if is_first_w(w, at) {
        handle_first_w(w, at)
    } else if is_arnow(w, at) {
        let text = arnow_text(w, at);
        Spoken::split(4, text, Add::Nothing, Add::One(b'F'), 0)
    } else {
        let text = views::text_ahead(w, at, 0, 4, b"WICZWITZ");
        if text != 0 {
            // Polish, "filipowicz"
            Spoken::split(5, text, Add::Two(b'T', b'S'), Add::Two(b'F', b'X'), 3)
        } else {
            Spoken::both(6, 0, Add::Nothing, 0)
        }
    }
}

fn handle_first_w(w: &[u8], at: usize) -> Spoken
    ensures { result ≡ run tree_first_w (some first_w) (upper w.now) at plain }
{
    let text = views::text_ahead(w, at, 0, 2, b"WH");
    if spots::vowel_ahead(w, at, 1) {
        // Wasserman should match Vasserman
        Spoken::split(2, text, Add::One(b'A'), Add::One(b'F'), 0)
    } else {
        // Uomo should match Womo
        Spoken::both(3, text, Add::One(b'A'), 0)
    }
}

fn is_first_w(w: &[u8], at: usize) -> bool
    ensures { result ≡ holds first_w (upper w.now) at plain }
{
    if at == 0 {
        spots::vowel_ahead(w, at, 1) | views::ahead(w, at, 0, 2, b"WH")
    } else {
        false
    }
}

// Arnow should match Arnoff.
fn is_arnow(w: &[u8], at: usize) -> bool
    ensures { result ≡ holds arnow (upper w.now) at plain }
{
    if (0 < at) & spots::from_end(w, at, 0) & spots::vowel_behind(w, at, 1) {
        true
    } else {
        (0 < at) & views::behind(w, at, 1, 5, b"EWSKIEWSKYOWSKIOWSKY") | views::front(w, 3, b"SCH")
    }
}

fn arnow_text(w: &[u8], at: usize) -> usize
    ensures { result ≡ text_of arnow (upper w.now) at }
{
    let ending = views::text_behind(w, at, 1, 5, b"EWSKIEWSKYOWSKIOWSKY");
    let front = views::text_front(w, 3, b"SCH");
    outcome::or_else(ending, front)
}
