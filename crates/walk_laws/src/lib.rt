// No code: what holds of a walk under any rule: a code under a limit, the fewest visits, the bound and that it is reached.
#![tactic(auto)]
