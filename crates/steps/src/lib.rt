// The transitions of a run, made in the bytes of a form: a due call is made, and a pending call is answered.
#![tactic(auto)]

pub mod calls;
mod framed;
mod instance;
pub mod laws;
mod replacement;
pub mod replies;
pub mod reply;
mod section;
pub mod step;
