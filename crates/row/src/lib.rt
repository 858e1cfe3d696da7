// A visit as a row of seven numbers, written to lent room.
#![tactic(auto)]

ghost use Rattle.std.specs.Prelude.{◌≡◌, ◌+◌, ◌≤◌, ◌<◌, length};
ghost use Rattle.std.proofs.lemmas.List.Edits.{sets};
ghost use Rattle.row.specs.Numbers.{gained, row_of, numbers_of, Small};

use outcome::{Add, Spoken};

// The numbers of a row.
pub const ROW: usize = 7;

// A gain as one number.
fn gained(add: Add) -> u32
    ensures { result ≡ gained add }
{
    match add {
        Add::Nothing => 0,
        Add::One(x) => u32::from(x),
        Add::Two(x, y) => u32::from(x) + 256 * u32::from(y),
    }
}

// Writes the row of a visit from `at` on.
pub fn put_row(rows: &mut [u32], at: usize, letter: u8, place: usize, spoken: Spoken)
    requires { (at + 7 ≤ length rows.old) × Small place spoken }
    ensures { rows.new ≡ sets rows.old at (numbers_of (row_of letter place spoken)) }
{
    let visit = spoken.visit;
    let row = [
        place as u32,
        u32::from(letter),
        spoken.case as u32,
        spoken.text as u32,
        gained(visit.primary),
        gained(visit.alternate),
        visit.over as u32,
    ];
    rows[at..at + ROW].copy_from_slice(&row);
}
