// A picture of a run over time: a text that shows the calls of sites and the publications on a scale of ticks.
#![tactic(auto)]

pub mod lane;
pub mod picture;
pub mod scale;
