// Lists in fixed memory: so many items at most, and no heap.
#![tactic(auto)]

pub mod full;
pub mod items;
pub mod list;
