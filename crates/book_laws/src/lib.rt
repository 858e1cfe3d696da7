// No code: what holds of station key books, and of what the writer makes, is in specs/ and proofs/.
#![tactic(auto)]
