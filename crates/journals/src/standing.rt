// What a run holds, as lines.
ghost use Rattle.std.specs.Prelude.{Some};
ghost use Rattle.engine.specs.Stands.{state_of};
ghost use Rattle.journals.specs.Lines.{now_lines, event_lines, site_lines, state_lines};

use crate::line::{EventLine, Hex, SiteLine};
use engine::run::Run;
use std::fmt;

// How many sites there are.
const SITES: u8 = 32;

// Its clock, size, due calls and form, then its events, and then the totals of each site that was ever called.
#[derive(Clone, Copy)]
pub(crate) struct Standing<'a, H>(pub(crate) &'a Run<H>);

impl<'a, H> fmt::Display for Standing<'a, H> {
    ghost output = { λ l. Some (state_lines (state_of l.0.now.plain)) };

    fn fmt<W: fmt::Write>(&self, f: &mut fmt::Formatter<W>) -> fmt::Result {
        let run = self.0;
        let now = Now(run);
        let events = Events(run);
        let sites = Sites(run);
        write!(f, "{now}{events}{sites}")
    }
}

// A line each for the clock, the size of the form, how many calls are due, and the form.
#[derive(Clone, Copy)]
struct Now<'a, H>(&'a Run<H>);

impl<'a, H> fmt::Display for Now<'a, H> {
    ghost output = { λ l. Some (now_lines (state_of l.0.now.plain)) };

    fn fmt<W: fmt::Write>(&self, f: &mut fmt::Formatter<W>) -> fmt::Result {
        let run = self.0;
        let clock = run.clock();
        let size = run.size();
        let due = run.due_count();
        let form = Hex(run.form());
        write!(f, "clock {clock}\nsize {size}\n")?;
        write!(f, "due {due}\nform {form}\n")
    }
}

// A line for each event, the oldest first.
#[derive(Clone, Copy)]
struct Events<'a, H>(&'a Run<H>);

impl<'a, H> fmt::Display for Events<'a, H> {
    ghost output = { λ l. Some (event_lines (state_of l.0.now.plain)) };

    fn fmt<W: fmt::Write>(&self, f: &mut fmt::Formatter<W>) -> fmt::Result {
        let run = self.0;
        for number in 0..run.event_count() {
            let line = EventLine(run.event(number).unwrap());
            write!(f, "{line}")?;
        }
        Ok(())
    }
}

// A line for each site that was ever called.
#[derive(Clone, Copy)]
struct Sites<'a, H>(&'a Run<H>);

impl<'a, H> fmt::Display for Sites<'a, H> {
    ghost output = { λ l. Some (site_lines (state_of l.0.now.plain)) };

    fn fmt<W: fmt::Write>(&self, f: &mut fmt::Formatter<W>) -> fmt::Result {
        let run = self.0;
        for site in 0..SITES {
            let totals = run.totals(site).unwrap();
            if totals.called > 0 {
                let line = SiteLine { site, totals };
                write!(f, "{line}")?;
            }
        }
        Ok(())
    }
}
