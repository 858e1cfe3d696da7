// The rule of T: one function for each branch, and one for each compound test. What the letter's rule promises is the first of its
// cases that holds; a branch's function promises its tree (specs/Trees.antt), a test's its condition.
// Word and place stay two parameters, for speed: crates/spots. No two functions are one: each promises its own part of the definition.
#![tactic(auto, unfolding(rules::specs::Cond::holds, rules::specs::Told::text_of))]

ghost use Rattle.std.specs.Prelude.{◌≡◌, not, eqb};
ghost use Rattle.byte.specs.Text.{upper};
ghost use Rattle.rules.specs.CasesMZ.{cases_t, TION, Th, thomas};
ghost use Rattle.rules.specs.Cond.{holds, plain};
ghost use Rattle.rules.specs.Told.{text_of, numbered, speaker};

use outcome::{Add, Spoken};

pub fn handle_t(w: &[u8], at: usize) -> Spoken
    ensures { result ≡ speaker (numbered cases_t) (upper w.now) at plain }
{
    if views::ahead(w, at, 1, 1, b"CDHIT") {
        handle_t_before(w, at)
    } else {
        Spoken::both(5, 0, Add::One(b'T'), 0)
    }
}

// T before a byte that some case asks for.
fn handle_t_before(w: &[u8], at: usize) -> Spoken
    ensures { result ≡ speaker (numbered cases_t) (upper w.now) at plain }
{
    let text = tion_text(w, at);
    if text != 0 {
        Spoken::both(1, text, Add::One(b'X'), 2)
    } else if is_th(w, at) {
        if is_thomas(w, at) {
            Spoken::both(2, 1, Add::One(b'T'), 1)
        } else {
            Spoken::split(3, 1, Add::One(b'0'), Add::One(b'T'), 1)
        }
    } else {
        let doubled = views::text_ahead(w, at, 1, 1, b"TD");
        Spoken::either(4, doubled != 0, doubled, Add::One(b'T'), Add::One(b'T'))
    }
}

fn tion_text(w: &[u8], at: usize) -> usize
    ensures tells { result ≡ text_of TION (upper w.now) at }
    ensures holds { holds TION (upper w.now) at plain ≡ not (eqb result 0) }
{
    let tion = views::text_ahead(w, at, 0, 4, b"TION");
    if tion != 0 {
        tion
    } else {
        views::text_ahead(w, at, 0, 3, b"TIATCH")
    }
}

fn is_th(w: &[u8], at: usize) -> bool
    ensures { result ≡ holds Th (upper w.now) at plain }
{
    if views::ahead(w, at, 0, 2, b"TH") {
        true
    } else {
        views::ahead(w, at, 0, 3, b"TTH")
    }
}

// "thomas", "thames", or Germanic.
fn is_thomas(w: &[u8], at: usize) -> bool
    ensures { result ≡ holds thomas (upper w.now) at plain }
{
    views::ahead(w, at, 2, 2, b"OMAM")
        | views::front(w, 4, b"VAN VON ")
        | views::front(w, 3, b"SCH")
}
