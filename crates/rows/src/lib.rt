// No code: what a listing is, and what holds of it, is in specs/ and proofs/.
#![tactic(auto)]
