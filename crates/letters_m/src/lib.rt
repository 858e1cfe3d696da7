// The rule of M: one function for each branch, and one for each compound test. What the letter's rule promises is the first of its
// cases that holds; a branch's function promises its tree (specs/Trees.antt), a test's its condition.
// Word and place stay two parameters, for speed: crates/spots. No two functions are one: each promises its own part of the definition.
#![tactic(auto, unfolding(rules::specs::Cond::holds, rules::specs::Told::text_of))]

ghost use Rattle.std.specs.Prelude.{◌≡◌};
ghost use Rattle.byte.specs.Text.{upper};
ghost use Rattle.rules.specs.CasesMZ.{cases_m, condition_m0};
ghost use Rattle.rules.specs.Cond.{holds, plain};
ghost use Rattle.rules.specs.Told.{text_of, numbered, speaker};

use outcome::{Add, Spoken};

pub fn handle_m(w: &[u8], at: usize) -> Spoken
    ensures { result ≡ speaker (numbered cases_m) (upper w.now) at plain }
{
    if condition_m0(w, at) {
        let text = m0_text(w, at);
        Spoken::both(1, text, Add::One(b'M'), 1)
    } else {
        Spoken::both(2, 0, Add::One(b'M'), 0)
    }
}

// A doubled M, or the B of UMB when that B is last ("dumb") or ER follows it ("plumber").
fn condition_m0(w: &[u8], at: usize) -> bool
    ensures { result ≡ holds condition_m0 (upper w.now) at plain }
{
    if spots::char_ahead(w, at, 1, b'M') {
        true
    } else if (0 < at) & views::behind(w, at, 1, 3, b"UMB") {
        spots::from_end(w, at, 1) | views::ahead(w, at, 2, 2, b"ER")
    } else {
        false
    }
}

fn m0_text(w: &[u8], at: usize) -> usize
    ensures { result ≡ text_of condition_m0 (upper w.now) at }
{
    let umb = views::text_behind(w, at, 1, 3, b"UMB");
    let er = views::text_ahead(w, at, 2, 2, b"ER");
    outcome::or_else(umb, er)
}
