// No code: what a join lists, in the request's words, and that it is what encoding all names afresh would give.
#![tactic(auto)]
