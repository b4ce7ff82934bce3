// Recorded events in numbers.
ghost use Rattle.std.specs.Prelude.{◌≡◌};
ghost use Rattle.orc.specs.Expressions.{entry};
ghost use Rattle.events.specs.Events.{entry_of};
ghost use Rattle.engine.specs.Stands.{state_of};
ghost use Rattle.controllers.specs.Shown.{event_of, events_of};
ghost use Rattle.controllers.specs.Written.{laid};

use engine::run::Run;
use runs::event::Kind;

// The clock at which it happened; its kind, 0 for a call, 1 for an inner step, 2 for a publication; its number and its value.
#[repr(C)]
#[derive(Clone, Copy, Debug, Default)]
pub struct Event {
    pub clock: u32,
    pub kind: u32,
    pub number: u32,
    pub value: u32,
}

impl From<events::event::Event> for Event {
    ghost from_gives = { λ event e. e ≡ event_of (entry_of event) };

    fn from(event: events::event::Event) -> Event {
        let kind = match event.kind() {
            Kind::Called => 0,
            Kind::Inner => 1,
            Kind::Out => 2,
        };
        Event {
            clock: event.clock,
            kind,
            number: u32::from(event.number()),
            value: u32::from(event.value()),
        }
    }
}

// The event of a number, from 0, the oldest first, if there is one.
fn recorded<H>(run: &Run<H>, number: usize) -> Option<Event>
    ensures { result ≡ entry (events_of (state_of run.now.plain)) number }
{
    run.event(number).map(Event::from)
}

// Writes the events that are recorded, the oldest first, as far as there is room.
pub fn write_events<H>(run: &Run<H>, events: &mut [Event])
    ensures { events.new ≡ laid (events_of (state_of run.now.plain)) events.old }
{
    for (number, place) in events.iter_mut().enumerate() {
        if let Some(event) = recorded(run, number) {
            *place = event;
        }
    }
}
