// The language and its theory: see specs/. Each function carries one theorem, its contract.
#![tactic(auto)]

pub mod agreement;
pub mod examples;
pub mod laws;
pub mod reading;
