// The parameter file: its check with any host, and its definitions and goal.
#![tactic(auto)]

pub mod check;
pub mod contents;
pub mod laws;
mod scope;
mod small;
