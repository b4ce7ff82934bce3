// A run played from a list of calls.
#![tactic(auto)]

pub mod play;
pub mod played;
