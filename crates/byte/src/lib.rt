// A byte of a word: letters a to z count as A to Z as they are read, and the vowels are told.
#![tactic(auto)]

ghost use Rattle.std.specs.Prelude.{◌≡◌};
ghost use Rattle.byte.specs.Text.{up};
ghost use Rattle.byte.specs.Vowel.{vowel};

// The byte, a small letter as its capital.
#[tactic(auto, unfolding(crate::specs::Text::up))]
pub fn capital(b: u8) -> u8
    ensures { result ≡ up b }
{
    b.to_ascii_uppercase()
}

// The vowels as a mask of letters, one test against which document 02, L5 asks for: bit k stands for the letter whose low five bits
// are k.
const VOWELS: u32 = 1 << (b'A' & 31)
    | 1 << (b'E' & 31)
    | 1 << (b'I' & 31)
    | 1 << (b'O' & 31)
    | 1 << (b'U' & 31)
    | 1 << (b'Y' & 31);

// The capital is a vowel, Y among them. Bytes 64 to 95 are the row of the capitals, and the low five bits tell the letter.
pub fn is_vowel(b: u8) -> bool
    ensures { result ≡ vowel b }
{
    if b & 224 != 64 {
        return false;
    }
    (VOWELS >> (b & 31)) & 1 == 1
}
