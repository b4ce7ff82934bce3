// The script of a run: its lines as calls, and calls as lines.
#![tactic(auto)]

pub mod fault;
pub mod line;
mod number;
pub mod script;
