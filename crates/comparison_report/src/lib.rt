// What the comparison of two engines prints: digests of what a call leaves, the tally, differences and small cases; and the reader of the
// texts of small cases.
#![tactic(auto)]

pub mod digest;
pub mod report;
pub mod script;
