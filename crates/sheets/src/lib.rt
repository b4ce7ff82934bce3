// The site sheet: what a lift's contacts and drives can reply, and when, as the depot writes it.
#![tactic(auto)]

pub mod command;
pub mod laws;
pub mod read;
pub mod row;
pub mod rows;
