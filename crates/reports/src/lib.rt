// What the program prints, as texts, so that it can be tried without a terminal.
#![tactic(auto)]

pub mod controller;
mod dump;
pub mod file;
mod ranges;
pub mod replies;
pub mod report;
pub mod sheet;
