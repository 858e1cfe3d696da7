// The line reader's work, on slices: the program above it only reads and writes.
// The bytes of the line that is not ended lie in `word`, `held` of them. They stay two parameters: `word` is lent, `held` goes by value, and what
// `feed` and `finish` leave no choice of (proofs/NoChoice.antt) is said of both. So do `out` and `wrote`: the room is lent.
#![tactic(auto)]

ghost use Rattle.std.specs.Prelude.{◌≡◌, List, ℕ, ◌+◌, ◌≤◌, length};
ghost use Rattle.line.specs.Line.{line_of, line_room, Lies};
ghost use Rattle.lines.specs.Feed.{hand, keep, Holds, Fed, Finished};
ghost use Rattle.lines.specs.Inside.{Answered, Stepped};

use line::{LINE_ROOM, Span};
use terms::WORD_LIMIT;

// The bytes of output so far, and the bytes held of the line that is not ended.
#[derive(Clone, Copy)]
struct Counts {
    wrote: usize,
    held: usize,
}

// How far a feed came: bytes of the block, bytes of the output, and the bytes held of the line that is not ended. Any number of
// held bytes over WORD_LIMIT says that the line is too long.
#[derive(Clone, Copy)]
pub struct Progress {
    pub used: usize,
    pub wrote: usize,
    pub held: usize,
}

// The line of the held bytes.
fn held_line(word: &[u8; WORD_LIMIT], held: usize, line: &mut [u8]) -> Span
    requires { length line.old ≡ line_room }
    ensures { (p : List ℕ) → Holds p (hand held word.now) → Lies (line_of p) result line.new }
{
    if WORD_LIMIT < held {
        return line::refuse(line, 1);
    }
    line::build_line(&word[..held], line)
}

// Stores it in `out` from `wrote` on, and answers its length.
fn answer(word: &[u8; WORD_LIMIT], held: usize, out: &mut [u8], wrote: usize) -> usize
    requires { wrote + line_room ≤ length out.old }
    ensures { Answered (hand held word.now) out.old wrote result out.new }
{
    let mut line = [0u8; LINE_ROOM];
    let span = held_line(word, held, &mut line);
    let start = span.start;
    let end = span.end;
    copying::copy_to(out, wrote, &line[start..end]);
    end - start
}

// One byte more of the line. What is over WORD_LIMIT is read and not kept.
fn hold(word: &mut [u8; WORD_LIMIT], held: usize, b: u8) -> usize
    ensures { hand result word.new ≡ keep b (hand held word.old) }
{
    if held < WORD_LIMIT {
        word[held] = b;
        return held + 1;
    }
    WORD_LIMIT + 1
}

// One byte of input: byte 10 ends the line, and any other is held.
fn step(b: u8, word: &mut [u8; WORD_LIMIT], held: usize, out: &mut [u8], wrote: usize) -> Counts
    requires { wrote + line_room ≤ length out.old }
    ensures { Stepped b (hand held word.old) out.old wrote result word.new out.new }
{
    if b == 10 {
        let n = answer(word, held, out, wrote);
        return Counts {
            wrote: wrote + n,
            held: 0,
        };
    }
    let n = hold(word, held, b);
    Counts { wrote, held: n }
}

// Reads on in `block` until it ends or `out` has no room for another line. Nothing is held before the first block.
pub fn feed(block: &[u8], word: &mut [u8; WORD_LIMIT], held: usize, out: &mut [u8]) -> Progress
    ensures { Fed block.now (hand held word.old) out.old result word.new out.new }
{
    let mut wrote = 0;
    let mut count = held;
    for (used, b) in block.iter().enumerate() {
        if out.len() - wrote < LINE_ROOM {
            return Progress {
                used,
                wrote,
                held: count,
            };
        }
        let s = step(*b, word, count, out, wrote);
        wrote = s.wrote;
        count = s.held;
    }
    Progress {
        used: block.len(),
        wrote,
        held: count,
    }
}

// At the end of the input: the line that no byte 10 ended. Nothing held is no line.
pub fn finish(word: &[u8; WORD_LIMIT], held: usize, out: &mut [u8; LINE_ROOM]) -> usize
    ensures { Finished (hand held word.now) out.old result out.new }
{
    if held == 0 {
        return 0;
    }
    answer(word, held, out, 0)
}
