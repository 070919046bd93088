// Pseudo-random numbers, word tables and sites, for the programs that compare the two engines.
#![tactic(auto)]

pub mod random;
pub mod sites;
pub mod words;
