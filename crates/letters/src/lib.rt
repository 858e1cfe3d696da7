// One visit: a match on the visited byte, whose promise is the definition's visit.
// Word and place stay two parameters, for speed: crates/spots.
#![tactic(auto)]

ghost use Rattle.std.specs.Prelude.{◌≡◌};
ghost use Rattle.byte.specs.Text.{upper};
ghost use Rattle.rules.specs.Cond.{mode};
ghost use Rattle.rules.specs.Table.{spoken_at};

use outcome::{Add, Spoken};

// What the byte at `at` adds to the codes and passes over, and which case says so, by which text; where no byte stands, nothing. `slavo`
// is the word's mark, and `second` says that the rules are edition 2's: two answers of yes or no, as the definition's Mode has them; the
// rules do not know of terms::Edition.
pub fn visit_at(w: &[u8], at: usize, slavo: bool, second: bool) -> Spoken
    ensures { result ≡ spoken_at (upper w.now) at (mode slavo second) }
{
    if w.len() <= at {
        return Spoken::both(1, 0, Add::Nothing, 0);
    }
    // one match on the visited byte: document 01's form
    match w[at] {
        b'A' | b'a' | b'E' | b'e' | b'I' | b'i' | b'O' | b'o' | b'U' | b'u' | b'Y' | b'y' =>
            letters_plain::handle_vowel(w, at),
        b'B' | b'b' => letters_plain::handle_plain(w, at, b'B', b'P'),
        b'C' | b'c' => letters_c::handle_c(w, at, second),
        b'D' | b'd' => letters_d::handle_d(w, at),
        b'F' | b'f' => letters_plain::handle_plain(w, at, b'F', b'F'),
        b'G' | b'g' => letters_g::handle_g(w, at, slavo),
        b'H' | b'h' => letters_h::handle_h(w, at),
        b'J' | b'j' => letters_j::handle_j(w, at, slavo),
        b'K' | b'k' => letters_plain::handle_plain(w, at, b'K', b'K'),
        b'L' | b'l' => letters_l::handle_l(w, at),
        b'M' | b'm' => letters_m::handle_m(w, at),
        b'N' | b'n' => letters_plain::handle_plain(w, at, b'N', b'N'),
        b'P' | b'p' => letters_p::handle_p(w, at),
        b'Q' | b'q' => letters_plain::handle_plain(w, at, b'Q', b'K'),
        b'R' | b'r' => letters_r::handle_r(w, at, slavo),
        b'S' | b's' => letters_s::handle_s(w, at, slavo),
        b'T' | b't' => letters_t::handle_t(w, at),
        b'V' | b'v' => letters_plain::handle_plain(w, at, b'V', b'F'),
        b'W' | b'w' => letters_w::handle_w(w, at),
        b'X' | b'x' => letters_x::handle_x(w, at),
        b'Z' | b'z' => letters_z::handle_z(w, at, slavo),
        0..=64 | 91..=96 | 123..=255 => Spoken::both(1, 0, Add::Nothing, 0),
    }
}
