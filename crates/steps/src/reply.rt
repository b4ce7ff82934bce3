// What a reply makes of a form.
use crate::step::Step;
use places::stretch::Stretch;

// The transition, and the right part of the pruning that has ended with it, as a stretch of the form before.
#[derive(Clone, Copy)]
pub struct Reply<'a> {
    pub step: Step<'a>,
    pub pruned: Option<Stretch>,
}
