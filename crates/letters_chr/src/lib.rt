// CH as in Greek: the tests that give it K. Each promises its condition.
// Word and place stay two parameters, for speed: crates/spots.
#![tactic(auto, unfolding(rules::specs::Cond::holds))]

ghost use Rattle.std.specs.Prelude.{◌≡◌};
ghost use Rattle.byte.specs.Text.{upper};
ghost use Rattle.rules.specs.CasesC.{condition_ch0, condition_ch1, kh_before, van_or_von};
ghost use Rattle.rules.specs.Cond.{holds, edited, plain, ◌or◌};

pub fn is_greek(w: &[u8], at: usize, second: bool) -> bool
    ensures { result ≡ holds (condition_ch0 or condition_ch1) (upper w.now) at (edited second) }
{
    if condition_ch0(w, at) {
        true
    } else {
        condition_ch1(w, at, second)
    }
}

fn condition_ch0(w: &[u8], at: usize) -> bool
    ensures { result ≡ holds condition_ch0 (upper w.now) at plain }
{
    !(at != 0)
        & !(!views::ahead(w, at, 1, 5, b"HARACHARIS") & !views::ahead(w, at, 1, 3, b"HORHYMHIAHEM"))
        & !views::front(w, 5, b"CHORE")
}

fn condition_ch1(w: &[u8], at: usize, second: bool) -> bool
    ensures { result ≡ holds condition_ch1 (upper w.now) at (edited second) }
{
    (is_van_or_von(w, at, second) | views::front(w, 3, b"SCH"))
        | (1 < at) & views::behind(w, at, 2, 6, b"ORCHESARCHITORCHID")
        | (1 < at) & views::ahead(w, at, 2, 1, b"TS")
        | is_kh_before(w, at)
}

fn is_kh_before(w: &[u8], at: usize) -> bool
    ensures { result ≡ holds kh_before (upper w.now) at plain }
{
    ((at == 0) | views::behind(w, at, 1, 1, b"AOUE"))
        & (views::ahead(w, at, 2, 1, b"LRNMBHFVW ") | spots::from_end(w, at, 1))
}

// Edition 1 asks for four bytes with texts of three, which never holds: kept as the Rust has it.
fn is_van_or_von(w: &[u8], at: usize, second: bool) -> bool
    ensures { result ≡ holds van_or_von (upper w.now) at (edited second) }
{
    if second {
        views::front(w, 4, b"VAN VON ")
    } else {
        windows::window_is(w, 0, 4, b"VAN") | windows::window_is(w, 0, 4, b"VON")
    }
}
