// Events are recorded.
ghost use Rattle.std.specs.Prelude.{◌≡◌, ◌<◌, [], ◌∷◌, ◌++◌, length};
ghost use Rattle.events.specs.Events.{entry_of};
ghost use Rattle.engine.specs.Held.{entries};

use crate::record::Record;
use events::event::Event;

// Adds an event, for which there is room, behind the others.
// Kept: a function of its own. No public function of this repository asks anything of its caller, so the list's own `push`
// must be able to refuse; this one, which is private, is told that there is room.
pub(crate) fn record(events: &mut Record, event: Event)
    requires { length (entries events.old) < 512 }
    ensures { entries events.new ≡ entries events.old ++ (entry_of event ∷ []) }
{
    events.push(event).unwrap();
}
