// No code: proofs/Known.antt proves the answers to names with known keys.
#![tactic(auto)]
