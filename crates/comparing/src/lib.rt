// Two slices of bytes compared.
#![tactic(auto, using(crate::proofs::Bytes::same_pointwise))]

ghost use Rattle.std.specs.Prelude.{◌≡◌};
ghost use Rattle.basics.specs.Same.{same};

// Whether both have the same bytes.
pub fn same_bytes(x: &[u8], y: &[u8]) -> bool
    ensures { result ≡ same x.now y.now }
{
    x == y
}
