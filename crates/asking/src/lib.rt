// A host's numbers as a limit and a choice: a flag and a number, and a flag, since C has neither an Option nor an enum of ours.
#![tactic(auto)]

ghost use Rattle.std.specs.Prelude.{◌≡◌};
ghost use Rattle.asking.specs.Asked.{limit_of, choice_of};

use chosen::Choice;
use terms::Limit;

// `limit` counts where `limited` is true.
pub fn limit_of(limited: bool, limit: u64) -> Limit
    ensures { result ≡ limit_of limited limit }
{
    limited.then_some(limit as usize)
}

pub fn choice_of(alternate: bool) -> Choice
    ensures { result ≡ choice_of alternate }
{
    if alternate {
        Choice::Alternate
    } else {
        Choice::Primary
    }
}
