// Bytes copied: those of one slice into another, and a part of one down to its front.
#![tactic(auto, using(crate::proofs::Copies::within_sets))]

ghost use Rattle.std.specs.Prelude.{◌≡◌, ◌+◌, ◌≤◌, length, take, drop};
ghost use Rattle.std.proofs.lemmas.List.Edits.{sets};

// Copies `src` to `at`, byte by byte: the library's copy would have an archive for C need memmove from outside.
pub fn copy_to(out: &mut [u8], at: usize, src: &[u8])
    requires { at + length src.now ≤ length out.old }
    ensures { out.new ≡ sets out.old at src.now }
{
    for (i, b) in src.iter().enumerate() {
        out[at + i] = *b;
    }
}

// Copies `n` bytes from `at` down to `to`; the two may overlap.
pub fn copy_down(out: &mut [u8], to: usize, at: usize, n: usize)
    requires { (to ≤ at) × (at + n ≤ length out.old) }
    ensures { out.new ≡ sets out.old to (take n (drop at out.old)) }
{
    out.copy_within(at..at + n, to);
}
