// The fields of a book, a number and a text behind its length: read at any place, and put where there is room.
// A place stands beside the bytes and the room, here and in what puts and reads: there is no heap, and both are parts of what is lent.
#![tactic(auto)]

ghost use Rattle.std.specs.Prelude.{◌≡◌, ◌+◌, ◌^◌, ◌≤◌, ◌<◌, length, drop};
ghost use Rattle.fields.specs.Field.{number, text, read_number, read_bytes, read_text, any};
ghost use Rattle.fields.specs.Put.{Put};
ghost use Rattle.fields.specs.Told.{value_at, part_at, bytes_at};

use slices::Span;
use terms::Fault;

// What was read at a place, and the place behind it.
#[derive(Clone, Copy, Debug, PartialEq, Eq)]
pub struct Field<T> {
    pub value: T,
    pub next: usize,
}

// The number at a place.
#[tactic(auto, using(crate::proofs::Told::found_fault))]
pub fn number_at(s: &[u8], at: usize) -> Result<Field<u32>, Fault>
    ensures { result ≡ value_at at (read_number any (drop at s.now)) }
{
    let found = number::read_number(s, at)?;
    Ok(Field {
        value: found.value,
        next: at + found.used,
    })
}

// `len` bytes from a place on, whatever they are.
pub fn bytes_at(s: &[u8], start: usize, len: usize) -> Result<Field<Span>, Fault>
    ensures { result ≡ bytes_at start (read_bytes any len (drop start s.now)) }
{
    if slices::left_from(s, start) < len {
        return Err(Fault::BookEnds);
    }
    Ok(Field {
        value: Span { start, len },
        next: start + len,
    })
}

// The text at a place, whatever its length and its bytes are.
pub fn text_at(s: &[u8], at: usize) -> Result<Field<Span>, Fault>
    ensures { result ≡ part_at at (read_text any any (drop at s.now)) }
{
    let long = number_at(s, at)?;
    bytes_at(s, long.next, long.value as usize)
}

// Puts a number at a place, and gives the place behind it.
pub fn put_number(out: &mut [u8], at: usize, x: u32) -> usize
    requires { (x < 2 ^ 28) × (at + length (number x) ≤ length out.old) }
    ensures { Put out.old at (number x) result out.new }
{
    number::write_number(out, at, x).unwrap()
}

// Puts a text's length and its bytes.
pub fn put_text(out: &mut [u8], at: usize, t: &[u8]) -> usize
    requires { (length t.now < 2 ^ 28) × (at + length (text t.now) ≤ length out.old) }
    ensures { Put out.old at (text t.now) result out.new }
{
    let body = put_number(out, at, t.len() as u32);
    copying::copy_to(out, body, t);
    body + t.len()
}

// How many bytes a text takes.
pub fn text_size(t: &[u8]) -> usize
    requires { length t.now < 2 ^ 28 }
    ensures { result ≡ length (text t.now) }
{
    number::width(t.len() as u32) + t.len()
}
