// Room for what a program reads and writes, and its filling.
#![tactic(auto)]

ghost use Rattle.std.specs.Prelude.{◌≡◌, ◌≤◌, ℕ, length, get_or};

use std::io::{Read, Stdin};

// So many zeros. As a function's result they are made where they are kept, and no caller's proof writes them out.
pub fn zeros<const N: usize>() -> [u8; N]
    ensures long { N ≡ length result }
    ensures zeros { (k : ℕ) → get_or result k 0 ≡ 0 }
{
    [0; N]
}

// A mebibyte of them.
pub fn mebibyte() -> [u8; 1048576]
    ensures long { 1048576 ≡ length result }
    ensures zeros { (i : ℕ) → get_or result i 0 ≡ 0 }
{
    zeros()
}

// Reads until the room is full, the input ends or a read fails, and answers how many bytes it put at the room's start.
pub fn read_full(mut input: Stdin, room: &mut [u8]) -> usize
    ensures { result ≤ length room.new }
{
    let mut done = 0;
    // A `while`: a read gives any number of bytes, so that no iterator gives the places.
    while done < room.len() {
        match input.read(&mut room[done..]) {
            Ok(n) if n > 0 => done += n,
            _ => return done,
        }
    }
    done
}
