// The rule of Z: one function for each branch, and one for each compound test. What the letter's rule promises is the first of its
// cases that holds; a branch's function promises its tree (specs/Trees.antt), a test's its condition.
// Word and place stay two parameters, for speed: crates/spots.
#![tactic(auto)]

ghost use Rattle.std.specs.Prelude.{◌≡◌};
ghost use Rattle.std.proofs.Math.Option.{none};
ghost use Rattle.byte.specs.Text.{upper};
ghost use Rattle.rules.specs.CasesMZ.{cases_z, zo_zi_za};
ghost use Rattle.rules.specs.Cond.{holds, marked};
ghost use Rattle.rules.specs.Told.{numbered, speaker};
ghost use Rattle.rules.specs.Tree.{run};
ghost use Rattle.letters_z.specs.Trees.{tree_z_other};

use outcome::{Add, Spoken};

pub fn handle_z(w: &[u8], at: usize, slavo: bool) -> Spoken
    ensures { result ≡ speaker (numbered cases_z) (upper w.now) at (marked slavo) }
{
    if spots::char_ahead(w, at, 1, b'H') {
        // Chinese pinyin, "zhao"
        Spoken::both(1, 0, Add::One(b'J'), 1)
    } else {
        handle_z_other(w, at, slavo)
    }
}

fn handle_z_other(w: &[u8], at: usize, slavo: bool) -> Spoken
    ensures { result ≡ run tree_z_other none (upper w.now) at (marked slavo) }
{
    let doubled = spots::char_ahead(w, at, 1, b'Z');
    if is_zo_zi_za(w, at, slavo) {
        let text = views::text_ahead(w, at, 1, 2, b"ZOZIZA");
        Spoken::either(2, doubled, text, Add::One(b'S'), Add::Two(b'T', b'S'))
    } else {
        Spoken::either(4, doubled, 0, Add::One(b'S'), Add::One(b'S'))
    }
}

fn is_zo_zi_za(w: &[u8], at: usize, slavo: bool) -> bool
    ensures { result ≡ holds zo_zi_za (upper w.now) at (marked slavo) }
{
    if views::ahead(w, at, 1, 2, b"ZOZIZA") {
        true
    } else {
        slavo & ((0 < at) & !spots::char_behind(w, at, 1, b'T'))
    }
}
