// What a trimmed word tells before it is walked: the Slavo-Germanic mark, and where the first visit is.
#![tactic(auto)]

ghost use Rattle.std.specs.Prelude.{◌≡◌, cond};
ghost use Rattle.byte.specs.Text.{upper};
ghost use Rattle.word.specs.Mark.{slavo_germanic};
ghost use Rattle.word.specs.Start.{start_of};

// 1 where the test holds, else 0.
pub fn one_if(test: bool) -> usize
    ensures { result ≡ cond test 1 0 }
{
    usize::from(test)
}

// The place of the first visit: 1 where the first letter is silent.
pub fn start_of(w: &[u8]) -> usize
    ensures { result ≡ start_of w.now }
{
    one_if(views::front(w, 2, b"GNKNPNWRPS"))
}

// Whether the word has W, K, CZ or WITZ; the last begins with W and is not asked for. One read a byte and no early exit, so that a
// compiler can do many bytes at a time; bit 32 makes a letter small, and no other byte a letter.
pub fn is_slavo_germanic(w: &[u8]) -> bool
    ensures { result ≡ slavo_germanic (upper w.now) }
{
    let mut found = false;
    let mut last = 0;
    for x in w {
        let b = *x | 32;
        found = found | ((b == b'w') | (b == b'k') | (b == b'z') & (last == b'c'));
        last = b;
    }
    found
}
