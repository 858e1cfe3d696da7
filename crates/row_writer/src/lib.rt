// The rows of a word, visit by visit, written to lent room.
#![tactic(auto)]

ghost use Rattle.std.specs.Prelude.{◌≡◌, ◌*◌, ◌≤◌, length};
ghost use Rattle.terms.specs.Limits.{word_limit};
ghost use Rattle.walk.specs.Walk.{filled};
ghost use Rattle.walk.specs.Word.{visits_of};
ghost use Rattle.rows.specs.Listing.{all_numbers};
ghost use Rattle.row_writer.specs.Written.{edition_if, first_rows};

use row::ROW;

// Writes the rows of the first visits of a trimmed word.
pub fn put_rows(t: &[u8], second: bool, visits: usize, rows: &mut [u32])
    requires { (length t.now ≤ word_limit) × (visits ≤ length (visits_of (edition_if second) t.now)) × (7 * visits ≤ length rows.old) }
    ensures { rows.new ≡ filled (all_numbers (first_rows (edition_if second) visits t.now)) rows.old }
{
    let slavo = word::is_slavo_germanic(t);
    let mut at = word::start_of(t);
    for k in 0..visits {
        let spoken = letters::visit_at(t, at, slavo, second);
        row::put_row(rows, ROW * k, byte::capital(t[at]), at, spoken);
        at = at + 1 + spoken.visit.over;
    }
}
