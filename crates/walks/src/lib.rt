// New forms from old ones, written into fixed memory, and what the age of a pending call allows.
#![tactic(auto)]

pub mod ages;
pub mod buffer;
mod change;
pub mod copies;
pub mod endless;
mod heads;
mod rooms;
pub mod settling;
mod variables;
