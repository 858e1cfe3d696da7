// The walk over a trimmed word: the loop that visits place after place and writes
// what each visit adds, clipped to the limit. Of the letter rules it uses the promise of `visit_with` alone, which
// lends them the tally.
#![tactic(auto)]

ghost use Rattle.std.specs.Prelude.{◌≡◌, ◌≤◌, length};
ghost use Rattle.walk.specs.Walk.{filled, tally_of};
ghost use Rattle.walk.specs.Word.{limited_of};

use tally::Tally;
use terms::Edition;

// Walks the word under an edition and writes both codes under the limit; each buffer has room for its code.
pub fn walk(w: &[u8], edition: Edition, limit: usize, p: &mut [u8], a: &mut [u8]) -> Tally
    requires { (length (limited_of edition limit w.now).primary ≤ length p.old) × (length (limited_of edition limit w.now).alternate ≤ length a.old) }
    ensures tally { result ≡ tally_of (limited_of edition limit w.now) }
    ensures primary { p.new ≡ filled (limited_of edition limit w.now).primary p.old }
    ensures alternate { a.new ≡ filled (limited_of edition limit w.now).alternate a.old }
{
    let slavo = word::is_slavo_germanic(w);
    let second = edition.is_second();
    let mut at = word::start_of(w);
    let mut t = Tally {
        primary: 0,
        alternate: 0,
        visits: 0,
    };
    // A `while`, as document 01 has it: the place rises by one plus the bytes passed over.
    while at < w.len() {
        if (limit <= t.primary) & (limit <= t.alternate) {
            break;
        }
        let visited = visiting::visit_with(t, limit, w, at, slavo, second);
        let v = visited.visit;
        let x = v.primary;
        let y = v.alternate;
        let over = v.over;
        additions::put(p, t.primary, limit, x);
        additions::put(a, t.alternate, limit, y);
        t = visited.tally;
        at = at + 1 + over;
    }
    t
}
