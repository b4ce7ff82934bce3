// The journal of a run: what is printed of a script that is played over a parameter file and a sheet.
#![tactic(auto)]

pub mod journal;
mod lanes;
mod line;
mod standing;
