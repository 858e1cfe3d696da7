// The line that the line reader writes for one word: both codes with a tab between them, or a refusal.
#![tactic(auto)]

ghost use Rattle.std.specs.Prelude.{◌≡◌, [], ◌∷◌, ◌+◌, ◌≤◌, length};
ghost use Rattle.line.specs.Line.{line_of, line_room, Lies};

use encoder::Encoder;

// The longest line that is written: two codes, a tab and byte 10.
pub const LINE_ROOM: usize = 2 * Encoder::DEFAULT_LIMIT + 2;

// The tab's place in a line buffer, behind room for any primary code. Since it is known before the encoder is called, one call writes
// the alternate code where it stays; the primary code, whose length is known only after it, is put before the tab.
const TAB: usize = Encoder::DEFAULT_LIMIT;

// Where a line lies in its buffer. No Range, which is not copied.
#[derive(Clone, Copy, Debug, PartialEq, Eq)]
pub struct Span {
    pub start: usize,
    pub end: usize,
}

// The line of a refusal, by its number and no enum: any number up to 4 is taken. The line is a slice and no array, here and
// below: what the two ask of callers may not grow (README).
pub fn refuse(line: &mut [u8], number: u8) -> Span
    requires { (length line.old ≡ line_room) × (number ≤ 4) }
    ensures { Lies (33 ∷ (48 + number) ∷ 10 ∷ []) result line.new }
{
    line[0] = b'!';
    line[1] = b'0' + number;
    line[2] = 10;
    Span { start: 0, end: 3 }
}

// The line of a word, built in one piece: the encoder writes the alternate code behind the tab, in the same line buffer.
pub fn build_line(word: &[u8], line: &mut [u8]) -> Span
    requires { length line.old ≡ line_room }
    ensures { Lies (line_of word.now) result line.new }
{
    let mut code = [0u8; Encoder::DEFAULT_LIMIT];
    line[TAB] = 9;
    let behind = TAB + 1;
    match Encoder::default().encode(word, &mut code, &mut line[behind..]) {
        Ok(coded) => {
            let start = TAB - coded.primary;
            copying::copy_to(line, start, &code[..coded.primary]);
            let end = behind + coded.alternate;
            line[end] = 10;
            Span {
                start,
                end: end + 1,
            }
        }
        Err(refusal) => refuse(line, u8::from(refusal)),
    }
}
