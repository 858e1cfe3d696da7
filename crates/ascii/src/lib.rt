// Whether a word is ASCII, and the place of its first byte that is not.
#![tactic(auto)]

ghost use Rattle.std.specs.Prelude.{◌≡◌};
ghost use Rattle.ascii.specs.High.{is_ascii, first_high};

// Whether no byte is 128 or more. Every byte is read, since a loop with one way out is compiled to wide steps: with `all` in its place an
// encoded word takes up to three times the instructions.
pub fn is_ascii(w: &[u8]) -> bool
    ensures { result ≡ is_ascii w.now }
{
    let mut high = false;
    for b in w {
        high |= 128 <= *b;
    }
    !high
}

// The place of the first byte of 128 or more, and the length where there is none.
pub fn first_high(w: &[u8]) -> usize
    ensures { result ≡ first_high w.now }
{
    w.iter().position(|b| 128 <= *b).unwrap_or(w.len())
}
