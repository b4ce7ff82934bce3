// The run of a parameter file: what it holds, and the calls that move it on.
#![tactic(auto)]

pub mod calls;
mod ended;
mod loading;
mod moving;
mod plain;
mod readers;
mod record;
mod recording;
pub mod run;
mod settling;
pub mod shown;
mod stepping;
mod table;
mod tallies;
mod waiting;
mod whole;
