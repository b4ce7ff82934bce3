// Hosts: which sites there are, and what each can reply to a value, when.
#![tactic(auto)]

pub mod host;
pub mod local;
pub mod pair;
pub mod sheet;
