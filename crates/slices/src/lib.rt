// A slice of bytes: a part of it, and the bytes left from a place on.
#![tactic(auto)]

ghost use Rattle.std.specs.Prelude.{◌≡◌, ◌-◌, min, length};
ghost use Rattle.slices.specs.Parts.{within};

#[derive(Clone, Copy)]
pub struct Span {
    pub start: usize,
    pub len: usize,
}

// The smaller of two.
pub fn least(a: usize, b: usize) -> usize
    ensures { result ≡ min a b }
{
    a.min(b)
}

// The bytes of a part, and none where it does not lie in `s`.
pub fn bytes_of(s: &[u8], span: Span) -> &[u8]
    ensures { result.now ≡ within s.now span }
{
    match s.get(span.start..) {
        Some(rest) if span.len <= rest.len() => &rest[..span.len],
        _ => &[],
    }
}

// How many bytes there are from a place on.
pub fn left_from(s: &[u8], at: usize) -> usize
    ensures { result ≡ length s.now - at }
{
    s.len().saturating_sub(at)
}
