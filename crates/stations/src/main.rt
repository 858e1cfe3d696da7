// Prints a station key book that stands on standard input: a line for its header, one for each record, and one for how many there are. A closed
// record's line ends with the word, and the last line tells how many are closed.
// A fault ends the print, and its number, behind `!`, begins the last line.
#![tactic(auto)]

use entry::{Kind, Record};
use header::{Cursor, Header};
use std::io::{Read, Stdin, Stdout};
use std::{fmt, io};
use terms::Fault;

// What keeps a book from being printed to its end.
#[derive(Clone, Copy, Debug, PartialEq, Eq)]
enum Failure {
    CannotRead,
    CannotWrite,
    TooLong,
}

impl fmt::Display for Failure {
    fn fmt<W: fmt::Write>(&self, f: &mut fmt::Formatter<W>) -> fmt::Result {
        f.write_str(match self {
            Failure::CannotRead => "cannot read",
            Failure::CannotWrite => "cannot write",
            Failure::TooLong => "the book is longer than 1,048,576 bytes",
        })
    }
}

// Each piece of a line is a write of its own, here and below, as it always was: a sink that takes only some of them has just those.
fn put_limit(output: Stdout, cut: u32) -> io::Result<()> {
    match header::limit_of(cut) {
        None => output.write_all(b"no limit"),
        Some(limit) => {
            output.write_all(b"limit ")?;
            output.print(limit)
        }
    }
}

fn put_header(output: Stdout, h: Header) -> io::Result<()> {
    output.write_all(b"format ")?;
    output.print(h.format)?;
    output.write_all(b", edition ")?;
    output.print(h.edition)?;
    output.write_all(b", ")?;
    put_limit(output, h.cut)?;
    output.write_all(b"\n")
}

// The bytes of a name and of the codes go out as they are.
fn put_record(output: Stdout, s: &[u8], record: Record) -> io::Result<()> {
    output.print(record.station)?;
    for part in [record.name, record.primary, record.alternate] {
        output.write_all(b"\t")?;
        output.write_all(slices::bytes_of(s, part))?;
    }
    let end: &[u8] = match record.kind {
        Kind::Live => b"\n",
        Kind::Closed => b"\tclosed\n",
    };
    output.write_all(end)
}

// How many records there are.
fn put_count(output: Stdout, count: u64) -> io::Result<()> {
    if count == 1 {
        return output.write_all(b"1 record");
    }
    output.print(count)?;
    output.write_all(b" records")
}

// How many of them are closed, if any is, and the line's end.
fn put_closed(output: Stdout, closed: u64) -> io::Result<()> {
    if closed == 0 {
        return output.write_all(b"\n");
    }
    output.write_all(b", ")?;
    output.print(closed)?;
    output.write_all(b" closed\n")
}

fn put_fault(output: Stdout, fault: Fault) -> io::Result<()> {
    output.write_all(b"!")?;
    output.print(u8::from(fault))
}

// The records from a cursor on, to the end or to the first fault. Each tells where the next begins, so a cursor goes along.
fn put_records(output: Stdout, s: &[u8], header: Header, first: Cursor) -> io::Result<()> {
    let mut cursor = first;
    let mut count = 0;
    let mut closed = 0;
    loop {
        match book::next(s, header.format, header.edition, cursor) {
            Ok(Some(record)) => {
                put_record(output, s, record)?;
                cursor = record.next;
                count += 1;
                closed += u64::from(record.kind == Kind::Closed);
            }
            Ok(None) => {
                put_count(output, count)?;
                return put_closed(output, closed);
            }
            Err(fault) => {
                put_fault(output, fault)?;
                output.write_all(b" after ")?;
                put_count(output, count)?;
                return output.write_all(b"\n");
            }
        }
    }
}

fn put_book(output: Stdout, s: &[u8]) -> io::Result<()> {
    match header::open(s, 1) {
        Ok(opened) => {
            put_header(output, opened.header)?;
            put_records(output, s, opened.header, opened.first)
        }
        Err(fault) => {
            put_fault(output, fault)?;
            output.write_all(b" in the header\n")
        }
    }
}

// The first read ends at a full room, at the end or at a read that fails; one byte more tells which it was.
fn print_input(mut input: Stdin, output: Stdout) -> Result<(), Failure> {
    let mut text = rooms::mebibyte();
    let mut behind = [0u8; 1];
    let n = rooms::read_full(input, &mut text);
    if input.read(&mut behind).map_err(|_| Failure::CannotRead)? > 0 {
        return Err(Failure::TooLong);
    }
    put_book(output, &text[..n]).map_err(|_| Failure::CannotWrite)
}

// The first call that fails ends the print, and a line on standard error tells of it. The status stays 0, as it was; ./stations makes 1 of it.
// keys has the same frame and failures of its own: a crate for two lines is no plainer.
fn main(rt: HostRuntime) {
    if let Err(failure) = print_input(rt.stdin(), rt.stdout()) {
        let _ = eprintln!(rt; "stations: {failure}");
    }
}
