// Forms, the bytes that expressions are written in: where one ends, its head and its parts, and walks over it.
#![tactic(auto)]

pub mod command;
pub mod ends;
pub mod exact;
pub mod form;
pub mod mark;
pub mod measure;
pub mod pending;
mod scan;
pub mod walks;
