// The room that a trimmed word needs in each buffer, and the limit that its walk is given.
#![tactic(auto)]

ghost use Rattle.std.specs.Prelude.{◌≡◌, ◌≤◌};
ghost use Rattle.terms.specs.Limits.{word_limit};
ghost use Rattle.needs.specs.Needs.{need_of, cap_of};

use terms::Limit;

// The room that each buffer must have for a trimmed word of t bytes.
pub fn need_of(limit: Limit, t: usize) -> usize
    requires { t ≤ word_limit }
    ensures { result ≡ need_of limit t }
{
    let most = (2 * t).saturating_sub(1);
    limit.map_or(most, |n| n.min(most))
}

// The limit that the walk is given: with none, more bytes than a code of t bytes has.
pub fn cap_of(limit: Limit, t: usize) -> usize
    requires { t ≤ word_limit }
    ensures { result ≡ cap_of limit t }
{
    limit.unwrap_or(2 * t)
}
