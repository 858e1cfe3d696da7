// The encoder's and the equality question's answers, told as a host's numbers, under one name.
#![tactic(auto)]

pub use answers::{tell_answer, tell_reply, tell_verdict};
