// The rule of C before H: one function for each branch, and one for each compound test. A branch's function promises its tree
// (specs/Trees.antt), a test's its condition.
// Word and place stay two parameters, for speed: crates/spots. No two functions are one: each promises its own part of the definition.
#![tactic(auto, unfolding(rules::specs::Cond::holds, rules::specs::Told::text_of))]

ghost use Rattle.std.specs.Prelude.{◌≡◌, true};
ghost use Rattle.std.proofs.Math.Option.{none, some};
ghost use Rattle.byte.specs.Text.{upper};
ghost use Rattle.rules.specs.CasesC.{condition_c0, ach, CH, chae};
ghost use Rattle.rules.specs.Cond.{holds, edited, plain, ◌or◌};
ghost use Rattle.rules.specs.Told.{text_of};
ghost use Rattle.rules.specs.Tree.{run};
ghost use Rattle.letters_ch.specs.Trees.{tree_ch, tree_c_before_h};

use outcome::{Add, Spoken};

pub fn handle_c_before_h(w: &[u8], at: usize, second: bool) -> Spoken
    ensures { result ≡ run tree_c_before_h none (upper w.now) at (edited second) }
{
    if condition_c0(w, at) {
        let text = c0_text(w, at);
        Spoken::both(1, text, Add::One(b'K'), 1)
    } else if views::ahead(w, at, 0, 2, b"CH") {
        handle_ch(w, at, second)
    } else {
        Spoken::both(18, 0, Add::One(b'K'), 0)
    }
}

fn c0_text(w: &[u8], at: usize) -> usize
    ensures { result ≡ text_of condition_c0 (upper w.now) at }
{
    let chia = views::text_ahead(w, at, 0, 4, b"CHIA");
    let bacher = views::text_behind(w, at, 2, 6, b"BACHERMACHER");
    outcome::or_else(chia, bacher)
}

fn condition_c0(w: &[u8], at: usize) -> bool
    ensures { result ≡ holds condition_c0 (upper w.now) at plain }
{
    if views::ahead(w, at, 0, 4, b"CHIA") {
        true
    } else {
        is_ach(w, at)
    }
}

// The Rust asks a second time, behind the test for ACH, whether the place is below 2.
fn is_ach(w: &[u8], at: usize) -> bool
    ensures { result ≡ holds ach (upper w.now) at plain }
{
    let ach = views::behind(w, at, 1, 3, b"ACH");
    if ach {
        !(at < 1)
            & !((at < 2) | spots::vowel_behind(w, at, 2))
            & !((0 < at) & !ach)
            & (!(spots::char_ahead(w, at, 2, b'I') | spots::char_ahead(w, at, 2, b'E'))
                | views::behind(w, at, 2, 6, b"BACHERMACHER"))
    } else {
        // at place 0 the first test fails, and behind it the third
        false
    }
}

fn handle_ch(w: &[u8], at: usize, second: bool) -> Spoken
    requires { holds CH (upper w.now) at plain ≡ true }
    ensures { result ≡ run tree_ch (some CH) (upper w.now) at (edited second) }
{
    if is_chae(w, at) {
        // "Michael"
        Spoken::split(3, 1, Add::One(b'K'), Add::One(b'X'), 1)
    } else if letters_chr::is_greek(w, at, second) {
        // Greek roots ("chemistry", "chorus"), Germanic, or otherwise ch for the kh sound
        Spoken::both(4, 1, Add::One(b'K'), 1)
    } else if 0 < at {
        if views::front(w, 2, b"MC") {
            Spoken::both(5, 1, Add::One(b'K'), 1)
        } else {
            Spoken::split(6, 1, Add::One(b'X'), Add::One(b'K'), 1)
        }
    } else {
        Spoken::both(7, 1, Add::One(b'X'), 1)
    }
}

fn is_chae(w: &[u8], at: usize) -> bool
    ensures { result ≡ holds chae (upper w.now) at plain }
{
    if 0 < at {
        views::ahead(w, at, 0, 4, b"CHAE")
    } else {
        false
    }
}
