// The chosen code, as a part of the buffer it lies in.
#![tactic(auto)]

ghost use Rattle.std.specs.Prelude.{◌≡◌};
ghost use Rattle.chosen.specs.Chosen.{front_of, chosen_of};

#[derive(Clone, Copy, Debug, PartialEq, Eq)]
pub enum Choice {
    Primary,
    Alternate,
}

// The first n bytes of a buffer, and none where it has fewer.
fn front_of(buf: &[u8], n: usize) -> &[u8]
    ensures { result.now ≡ front_of n buf.now }
{
    buf.get(..n).unwrap_or(&[])
}

// The chosen code, as a part of the buffer it lies in. The lengths stand beside the buffers, since a stated one may exceed its buffer
// (document 01, whose form this is): then the part is empty.
pub fn chosen<'a>(
    choice: Choice,
    primary: &'a [u8],
    primary_length: usize,
    alternate: &'a [u8],
    alternate_length: usize,
) -> &'a [u8]
    ensures { result.now ≡ chosen_of choice primary.now primary_length alternate.now alternate_length }
{
    match choice {
        Choice::Primary => front_of(primary, primary_length),
        Choice::Alternate => front_of(alternate, alternate_length),
    }
}
