// What is asked of a word before its walk, under one name: whether it is ASCII, and its part between the blanks.
#![tactic(auto)]

pub use ascii::{first_high, is_ascii};
pub use trimming::{back, front, trimmed};
