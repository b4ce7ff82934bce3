// What a run may answer and hold, and why its record can be believed: see specs/. The calls, their refusals and the kinds
// of events are the ones that an engine takes and gives. Each other function carries one theorem, its contract.
#![tactic(auto)]

pub mod call;
pub mod cases;
pub mod event;
pub mod faithful;
pub mod moving;
pub mod refusal;
