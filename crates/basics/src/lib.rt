// No code: what a promise that leaves no choice is, tests taken apart, and lists compared.
#![tactic(auto)]
