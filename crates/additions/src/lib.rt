// An addition written to a code, clipped to the limit.
// `len` stands beside `buf`: the code's buffer is lent, and there is no heap.
#![tactic(auto)]

ghost use Rattle.std.specs.Prelude.{◌≡◌, [], ◌∷◌, ◌+◌, ◌-◌, ◌≤◌, length, take};
ghost use Rattle.std.proofs.lemmas.List.Edits.{sets};
ghost use Rattle.rules.specs.Kept.{bytes_of};

use outcome::Add;

// Writes a byte at `len` unless the limit is reached (the Rust's append_char).
fn put_byte(buf: &mut [u8], len: usize, limit: usize, x: u8)
    requires { len + length (take (limit - len) (x ∷ [])) ≤ length buf.old }
    ensures { buf.new ≡ sets buf.old len (take (limit - len) (x ∷ [])) }
{
    if limit <= len {
        return;
    }
    buf[len] = x;
}

// Writes an addition, clipped to the limit (the Rust's append_str).
pub fn put(buf: &mut [u8], len: usize, limit: usize, add: Add)
    requires { len + length (take (limit - len) (bytes_of add)) ≤ length buf.old }
    ensures { buf.new ≡ sets buf.old len (take (limit - len) (bytes_of add)) }
{
    match add {
        Add::Nothing => {}
        Add::One(x) => put_byte(buf, len, limit, x),
        Add::Two(x, y) => {
            if len < limit {
                buf[len] = x;
                put_byte(buf, len + 1, limit, y);
            }
        }
    }
}
