// The running tally of a walk: both code lengths and the visit count, and what a visit makes of it, by value. It is lent to the
// letter rules (`visit_into`, crates/letters), as the Rust lends its DoubleMetaphoneResult.
#![tactic(auto)]

ghost use Rattle.std.specs.Prelude.{◌≡◌, ◌+◌, ◌-◌, ◌<◌, ◌^◌, min};
ghost use Rattle.tally.specs.Tally.{longer, counted};

use outcome::{Add, Visit};

// Both code lengths and the count of visits.
#[derive(Clone, Copy)]
pub struct Tally {
    pub primary: usize,
    pub alternate: usize,
    pub visits: usize,
}

// One more where the limit is not reached. A test: with the smaller of two numbers in its place, or in that of `longer`, an encoded word
// takes 3 to 12 % more instructions.
fn one_longer(len: usize, limit: usize) -> usize
    ensures { result ≡ len + min (limit - len) 1 }
{
    if limit <= len { len } else { len + 1 }
}

// The length of a code after an addition, clipped to the limit.
fn longer(len: usize, limit: usize, add: Add) -> usize
    ensures { result ≡ longer limit len add }
{
    match add {
        Add::Nothing => len,
        Add::One(_) => one_longer(len, limit),
        Add::Two(_, _) => one_longer(one_longer(len, limit), limit),
    }
}

impl Tally {
    // The clause on the visits stands in three contracts: README names the functions, and a type in its place would ask more.
    // The tally after a visit: each length takes its addition (the Rust's append_primary and append_alternate), and the visit counts
    // once. The alternate length comes first, since the walk, which is compiled as one function, takes 2 to 6 % fewer instructions so.
    pub fn counted(self, limit: usize, visit: Visit) -> Tally
        requires { self.visits + 1 < 2 ^ 64 }
        ensures { result ≡ counted self limit visit }
    {
        let alternate = longer(self.alternate, limit, visit.alternate);
        let primary = longer(self.primary, limit, visit.primary);
        Tally {
            primary,
            alternate,
            visits: self.visits + 1,
        }
    }
}
