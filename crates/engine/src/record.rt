// The record of a run, in fixed memory.
use events::act::Act;
use events::event::Event;
use fixed::list::FixedList;

// How many events a record can hold.
const LONGEST: usize = 512;

// The events that have been recorded, the oldest first.
pub(crate) type Record = FixedList<Event, LONGEST>;

// What a record has where nothing has been recorded yet.
pub(crate) const UNUSED: Event = Event {
    clock: 0,
    act: Act::Inner,
};
