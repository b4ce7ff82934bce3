// What is told of a refusal, whatever was refused.
#![tactic(auto)]

pub mod reason;
pub mod verdict;
