// What can be read of a run, with no effect on it.
ghost use Rattle.std.specs.Prelude.{◌≡◌, ◌<◌, ◌≤◌, length, MatchOption};
ghost use Rattle.std.specs.Option.{option_map};
ghost use Rattle.orc.specs.Expressions.{bytes as form_bytes, size, entry};
ghost use Rattle.orc.specs.Calls.{due_count};
ghost use Rattle.events.specs.Events.{entry_of};
ghost use Rattle.engine.specs.Stands.{state_of};
ghost use Rattle.engine.specs.Shown.{Shows};

use crate::run::Run;
use crate::shown::SiteTotals;
use crate::table::Totals;
use events::event::Event;
use forms::form::Form;
use places::due::due_count;

impl<H> Run<H> {
    // Whether its file was accepted.
    pub fn is_loaded(&self) -> bool
        ensures { result ≡ (state_of self.now.plain).loaded }
    {
        self.plain.file.is_some()
    }

    // The clock, in ticks since begin.
    pub fn clock(&self) -> u32
        ensures { result ≡ (state_of self.now.plain).clock }
    {
        self.plain.clock
    }

    // The bytes of the standing form.
    pub fn form(&self) -> &[u8]
        ensures { result.now ≡ form_bytes (state_of self.now.plain).expression }
    {
        self.plain.form.as_slice()
    }

    // How many bytes it has.
    pub fn size(&self) -> usize
        ensures { result ≡ size (state_of self.now.plain).expression }
    {
        self.form().len()
    }

    // The byte of the standing form at an offset, if there is one.
    pub fn form_byte(&self, offset: usize) -> Option<u8>
        ensures { result ≡ entry (form_bytes (state_of self.now.plain).expression) offset }
    {
        self.form().get(offset).copied()
    }

    // How many calls are due.
    pub fn due_count(&self) -> usize
        ensures { result ≡ due_count (state_of self.now.plain).expression }
    {
        due_count(Form::new(self.form()))
    }

    // How many events are recorded.
    pub fn event_count(&self) -> usize
        ensures { result ≡ length (state_of self.now.plain).events }
    {
        self.plain.events.len()
    }

    // The event of a number, from 0, the oldest first, if there is one.
    pub fn event(&self, number: usize) -> Option<Event>
        ensures { option_map entry_of result ≡ entry (state_of self.now.plain).events number }
    {
        self.plain.events.as_slice().get(number).copied()
    }

    // The totals of a site, if there is such a site: 0 to 31.
    pub fn totals(&self, site: u8) -> Option<SiteTotals>
        ensures { MatchOption result (32 ≤ site) (λ t. (site < 32) × Shows (state_of self.now.plain) site t) }
    {
        self.plain.table.get(site).map(Totals::shown)
    }
}
