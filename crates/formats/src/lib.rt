// What the site sheet and the parameter file share: the faults of an input, the width of each command, and operands.
#![tactic(auto)]

pub mod fault;
pub mod operands;
pub mod widths;
