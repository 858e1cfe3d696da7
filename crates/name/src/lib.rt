// A stored name, read at any place. Its faults: a name that the encoder refuses, a number in a bad form, the book ends inside it.
#![tactic(auto)]

ghost use Rattle.std.specs.Prelude.{◌≡◌, ◌≤◌, length, drop};
ghost use Rattle.fields.specs.Field.{read_bytes, read_text, fault_in};
ghost use Rattle.fields.specs.Told.{part_at, bytes_at};
ghost use Rattle.name.specs.Named.{name_length, name_byte};

use ascii::is_ascii;
use fields::Field;
use slices::Span;
use terms::{Fault, WORD_LIMIT};

// The fault that a bad byte of a name shows. Which byte it is does not matter, so the encoder's wide test serves.
fn name_fault(w: &[u8]) -> Option<Fault>
    ensures { result ≡ fault_in name_byte w.now }
{
    if is_ascii(w) {
        None
    } else {
        Some(Fault::NotAscii)
    }
}

// The bytes of a name: a bad one is met before the end of the book.
fn name_bytes(s: &[u8], start: usize, len: usize) -> Result<Field<Span>, Fault>
    requires { start ≤ length s.now }
    ensures { result ≡ bytes_at start (read_bytes name_byte len (drop start s.now)) }
{
    let there = slices::least(len, s.len() - start);
    let end = start + there;
    match name_fault(&s[start..end]) {
        None => fields::bytes_at(s, start, len),
        Some(fault) => Err(fault),
    }
}

// Its length is judged before any byte of it.
pub fn name_at(s: &[u8], at: usize) -> Result<Field<Span>, Fault>
    ensures { result ≡ part_at at (read_text name_length name_byte (drop at s.now)) }
{
    let long = fields::number_at(s, at)?;
    let len = long.value as usize;
    if WORD_LIMIT < len {
        return Err(Fault::TooLong);
    }
    name_bytes(s, long.next, len)
}
