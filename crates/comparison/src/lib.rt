// What the programs that compare the two engines share: each call made on both engines with the same input, all that they leave
// compared, and the counts that are printed.
#![tactic(auto)]

pub mod answers;
pub mod calls;
pub mod engines;
