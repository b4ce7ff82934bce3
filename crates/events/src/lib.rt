// What a transition shows, and what is recorded of it.
#![tactic(auto)]

pub mod act;
pub mod event;
