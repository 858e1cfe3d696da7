// The line reader: reads standard input in blocks, and writes for each line what `lines` makes of it.
#![tactic(auto)]

ghost use Rattle.std.specs.Prelude.{◌≤◌, length};
ghost use Rattle.line.specs.Line.{line_room};

use line::LINE_ROOM;
use std::io::{Read, Stdin, Stdout};
use std::{fmt, io};
use terms::WORD_LIMIT;

// What ends the run before the input does.
#[derive(Clone, Copy, Debug, PartialEq, Eq)]
enum Failure {
    CannotRead,
    CannotWrite,
}

impl fmt::Display for Failure {
    fn fmt<W: fmt::Write>(&self, f: &mut fmt::Formatter<W>) -> fmt::Result {
        f.write_str(match self {
            Failure::CannotRead => "cannot read",
            Failure::CannotWrite => "cannot write",
        })
    }
}

// Feeds a block, and writes what that gives each time that `out` is full and at the block's end, so that no line waits for the next read.
// Answers how many bytes are held of the line that is not ended. How much of the block a feed takes is known only behind it.
// `word` and `held` are as in crates/lines.
fn drain(
    output: Stdout,
    block: &[u8],
    word: &mut [u8; WORD_LIMIT],
    held: usize,
    out: &mut [u8],
) -> io::Result<usize>
    requires { line_room ≤ length out.old }
{
    let mut rest = block;
    let mut count = held;
    while !rest.is_empty() {
        let fed = lines::feed(rest, word, count, out);
        output.write_all(&out[..fed.wrote])?;
        count = fed.held;
        rest = &rest[fed.used..];
    }
    Ok(count)
}

// Reads to the end. A read may give fewer bytes than there is room for; it gives none at the end of the input. Nothing says that the
// input ends, so the reads are as many as no run uses up.
fn read_all(
    mut input: Stdin,
    output: Stdout,
    block: &mut [u8],
    word: &mut [u8; WORD_LIMIT],
    out: &mut [u8],
) -> Result<usize, Failure>
    requires { line_room ≤ length out.old }
{
    let mut held = 0;
    for _ in 0..u64::MAX {
        let n = input.read(block).map_err(|_| Failure::CannotRead)?;
        if n == 0 {
            break;
        }
        held = drain(output, &block[..n], word, held, out).map_err(|_| Failure::CannotWrite)?;
    }
    Ok(held)
}

// Where a call failed, the line that is held may be cut, and is not answered.
fn answer_all(input: Stdin, output: Stdout) -> Result<(), Failure> {
    let mut block: [u8; 65536] = rooms::zeros();
    let mut word = [0u8; WORD_LIMIT];
    let mut out: [u8; 65536] = rooms::zeros();
    let mut last = [0u8; LINE_ROOM];
    let held = read_all(input, output, &mut block, &mut word, &mut out)?;
    let n = lines::finish(&word, held, &mut last);
    output
        .write_all(&last[..n])
        .map_err(|_| Failure::CannotWrite)
}

// A line that is lost is not lost in silence. The status stays 0, as it was; ./keys makes 1 of what is said. stations has the same
// frame and failures of its own: a crate for two lines is no plainer.
fn main(rt: HostRuntime) {
    if let Err(failure) = answer_all(rt.stdin(), rt.stdout()) {
        let _ = eprintln!(rt; "keys: {failure}");
    }
}
