// The -ger- and -gy- test of G: whether it holds, and which of its texts it tells.
// Word and place stay two parameters, for speed: crates/spots. No two functions are one: each promises its own part of the definition.
#![tactic(auto, unfolding(rules::specs::Cond::holds))]

ghost use Rattle.std.specs.Prelude.{◌≡◌};
ghost use Rattle.byte.specs.Text.{upper};
ghost use Rattle.rules.specs.CasesG.{ger_first, ger};
ghost use Rattle.rules.specs.Cond.{holds, plain};
ghost use Rattle.rules.specs.Told.{text_of};

// -ger-, -gy-: the Rust's `&&` binds before its `||`, so the last three tests do not guard the first.
pub fn is_ger(w: &[u8], at: usize) -> bool
    ensures { result ≡ holds ger (upper w.now) at plain }
{
    if is_ger_first(w, at) {
        true
    } else if views::ahead(w, at, 1, 2, b"ER") | spots::char_ahead(w, at, 1, b'Y') {
        !views::front(w, 6, b"DANGERRANGERMANGER")
            & ((at == 0) | !views::behind(w, at, 1, 1, b"EI"))
            & ((at == 0) | !views::behind(w, at, 1, 3, b"RGYOGY"))
    } else {
        false
    }
}

// Which of the texts for the beginning stands there, at any place; ER is one of them.
pub fn ger_text(w: &[u8], at: usize) -> usize
    ensures { result ≡ text_of ger (upper w.now) at }
{
    views::text_ahead(w, at, 1, 2, b"ESEPEBELEYIBILINIEEIER")
}

// -ges-, -gep-, -gel-, -gie- at the beginning.
fn is_ger_first(w: &[u8], at: usize) -> bool
    ensures { result ≡ holds ger_first (upper w.now) at plain }
{
    if at == 0 {
        spots::char_ahead(w, at, 1, b'Y') | views::ahead(w, at, 1, 2, b"ESEPEBELEYIBILINIEEIER")
    } else {
        false
    }
}
