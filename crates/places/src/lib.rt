// Places in a form: its due calls, its pending calls and the frames around them, each by its byte offset; and that what is
// replaced there is a transition. A place is told for bytes that are a form and no more.
#![tactic(auto)]

pub mod due;
pub mod frames;
pub mod splices;
pub mod stretch;
pub mod tickets;
