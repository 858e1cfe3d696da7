// Replays stored answers of the unchanged Rust, and prints how many the port gives too. A line of standard input is a limit (one digit, or
// `-` for none), a tab, the visits, a tab, the primary code, a tab, the alternate code, a tab and the word. The word runs to the line's end, so
// it may hold any byte but 10; a code holds neither a tab nor byte 10.
#![tactic(auto)]

use encoder::Encoder;
use itoa::Buffer;
use std::io;
use terms::{CODE_ROOM, Limit};

// A line's parts: the limit, the visits, the codes and the word.
#[derive(Clone, Copy)]
struct Stored<'a> {
    limit: Limit,
    visits: &'a [u8],
    primary: &'a [u8],
    alternate: &'a [u8],
    word: &'a [u8],
}

// How many lines the port answers too, and how many it does not.
#[derive(Clone, Copy)]
struct Counts {
    right: u64,
    wrong: u64,
}

fn limit_of(b: u8) -> Limit {
    char::from(b).to_digit(10).map(|digit| digit as usize)
}

// Cuts a line at its first four tabs, the first of which stands behind the limit's one byte.
fn cut(line: &[u8]) -> Option<Stored<'_>> {
    let (first, rest) = line.split_first()?;
    let mut parts = rest.strip_prefix(b"\t")?.splitn(4, |b| *b == b'\t');
    let visits = parts.next()?;
    let primary = parts.next()?;
    let alternate = parts.next()?;
    let word = parts.next()?;
    Some(Stored {
        limit: limit_of(*first),
        visits,
        primary,
        alternate,
        word,
    })
}

// Whether `text` is the number in decimal digits.
fn is_number(text: &[u8], n: usize) -> bool {
    let mut digits = Buffer::new();
    text == digits.format(n).as_bytes()
}

// Whether the port's answer for the word is the one that is stored.
fn is_same(stored: Stored<'_>) -> bool {
    let mut primary = [0u8; CODE_ROOM];
    let mut alternate = [0u8; CODE_ROOM];
    let answer = Encoder::new(stored.limit).encode(stored.word, &mut primary, &mut alternate);
    answer.is_ok_and(|coded| {
        is_number(stored.visits, coded.visits)
            && primary.get(..coded.primary) == Some(stored.primary)
            && alternate.get(..coded.alternate) == Some(stored.alternate)
    })
}

// A line that has not its four tabs is wrong.
fn is_right(line: &[u8]) -> bool {
    cut(line).is_some_and(is_same)
}

// Byte 10 ends a line, and a last line without it counts.
fn replay(text: &[u8]) -> Counts {
    let mut right = 0;
    let mut wrong = 0;
    for ended in text.split_inclusive(|b| *b == b'\n') {
        if is_right(ended.strip_suffix(b"\n").unwrap_or(ended)) {
            right += 1;
        } else {
            wrong += 1;
        }
    }
    Counts { right, wrong }
}

fn main(rt: HostRuntime) -> io::Result<()> {
    let mut text = rooms::mebibyte();
    let n = rooms::read_full(rt.stdin(), &mut text);
    let Counts { right, wrong } = replay(&text[..n]);
    println!(rt; "{right} right, {wrong} wrong")
}
