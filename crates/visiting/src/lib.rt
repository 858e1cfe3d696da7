// One visit with the running tally: it is lent to the rule, as the Rust lends its DoubleMetaphoneResult, and taken back.
// Word and place stay two parameters, for speed: crates/spots.
#![tactic(auto, using(rules::proofs::Told::spoken_visit))]

ghost use Rattle.std.specs.Prelude.{◌≡◌, ◌+◌, ◌<◌, ◌^◌};
ghost use Rattle.byte.specs.Text.{upper};
ghost use Rattle.rules.specs.Cond.{mode};
ghost use Rattle.rules.specs.Table.{visit};
ghost use Rattle.tally.specs.Tally.{counted};
ghost use Rattle.visiting.specs.Visited.{visited};

use outcome::Visit;
use tally::Tally;

// The running tally is lent to the rule, as the Rust lends its DoubleMetaphoneResult: it takes in what the rule answers, and the
// visit is handed on.
pub fn visit_into(
    t: &mut Tally,
    limit: usize,
    w: &[u8],
    at: usize,
    slavo: bool,
    second: bool,
) -> Visit
    requires { t.old.visits + 1 < 2 ^ 64 }
    ensures { (t.new ≡ counted t.old limit result) × (result ≡ visit (upper w.now) at (mode slavo second)) }
{
    let visit = letters::visit_at(w, at, slavo, second).visit;
    *t = t.counted(limit, visit);
    visit
}

// A visit, and the tally that took it in.
#[derive(Clone, Copy)]
pub struct Visited {
    pub tally: Tally,
    pub visit: Visit,
}

// The owner: lends its tally to the rule and hands it back. Whoever calls it lends nothing.
pub fn visit_with(
    mut t: Tally,
    limit: usize,
    w: &[u8],
    at: usize,
    slavo: bool,
    second: bool,
) -> Visited
    requires { t.visits + 1 < 2 ^ 64 }
    ensures { result ≡ visited t limit (visit (upper w.now) at (mode slavo second)) }
{
    let visit = visit_into(&mut t, limit, w, at, slavo, second);
    Visited { tally: t, visit }
}
