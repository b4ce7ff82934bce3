// A lift's controller, with all that is told of it in numbers: what judges a sheet and a file, and what plays a run in the caller's
// memory. Nothing is allocated.
#![tactic(auto)]

pub mod check;
pub mod event;
pub mod host;
pub mod judgement;
pub mod order;
pub mod play;
pub mod state;
pub mod totals;
pub mod verdict;
