// A recorded event.
ghost use Rattle.std.specs.Prelude.{◌≡◌};
ghost use Rattle.runs.specs.States.{shows};
ghost use Rattle.events.specs.Events.{entry_of};

use crate::act::Act;
use runs::event::Kind;

// What happened, and the clock when it did.
#[derive(Clone, Copy, PartialEq, Eq, Debug)]
pub struct Event {
    pub clock: u32,
    pub act: Act,
}

impl Event {
    // What kind of event it is.
    pub fn kind(self) -> Kind
        ensures { result ≡ (shows (entry_of self).act).kind }
    {
        match self.act {
            Act::Called { .. } => Kind::Called,
            Act::Inner => Kind::Inner,
            Act::Out(_) => Kind::Out,
        }
    }

    // The site of a call, and 0 for any other event.
    // Kept: a number, here and below, and not an `Option`. Both are public, and what an event is read as is defined with a number and
    // a value for each kind, 0 for none.
    pub fn number(self) -> u8
        ensures { result ≡ (shows (entry_of self).act).number }
    {
        match self.act {
            Act::Called { site, .. } => site,
            Act::Inner | Act::Out(_) => 0,
        }
    }

    // The value of a call or of a publication, and 0 for an inner step.
    pub fn value(self) -> u16
        ensures { result ≡ (shows (entry_of self).act).value }
    {
        match self.act {
            Act::Called { value, .. } | Act::Out(value) => value,
            Act::Inner => 0,
        }
    }
}
