// The lines of a journal.
ghost use Rattle.std.specs.Prelude.{Some};
ghost use Rattle.std.specs.Fmt.{WritesOnOk};
ghost use Rattle.events.specs.Events.{entry_of};
ghost use Rattle.journals.specs.Lines.{call_line, event_line, site_line, counts, byte_text, hex_text};

use engine::shown::SiteTotals;
use events::act::Act;
use events::event::Event;
use runs::call::Call;
use runs::refusal::Refusal;
use std::fmt;

// A call as it stands in the script, and what it met: `go 0: accepted`
#[derive(Clone, Copy)]
pub(crate) struct CallLine {
    pub(crate) call: Call,
    pub(crate) response: Result<(), Refusal>,
}

impl fmt::Display for CallLine {
    ghost output = { λ l. Some (call_line l.call l.response) };

    fn fmt<W: fmt::Write>(&self, f: &mut fmt::Formatter<W>) -> fmt::Result {
        let CallLine { call, response } = self;
        match response {
            Ok(()) => writeln!(f, "{call}: accepted"),
            Err(refusal) => writeln!(f, "{call}: {refusal}"),
        }
    }
}

// A recorded event: `event 3 call 4 1`
#[derive(Clone, Copy)]
pub(crate) struct EventLine(pub(crate) Event);

impl fmt::Display for EventLine {
    ghost output = { λ l. Some (event_line (entry_of l.0)) };

    fn fmt<W: fmt::Write>(&self, f: &mut fmt::Formatter<W>) -> fmt::Result {
        let Event { clock, act } = self.0;
        match act {
            Act::Called { site, value } => writeln!(f, "event {clock} call {site} {value}"),
            Act::Inner => writeln!(f, "event {clock} inner"),
            Act::Out(value) => writeln!(f, "event {clock} out {value}"),
        }
    }
}

// The totals of a site: `site 4 called 2 answered 1 withdrawn 0 lapsed 0 standing 1`
#[derive(Clone, Copy)]
pub(crate) struct SiteLine {
    pub(crate) site: u8,
    pub(crate) totals: SiteTotals,
}

impl fmt::Display for SiteLine {
    ghost output = { λ l. Some (site_line l.site (counts l.totals)) };

    fn fmt<W: fmt::Write>(&self, f: &mut fmt::Formatter<W>) -> fmt::Result {
        let site = self.site;
        let SiteTotals {
            called,
            answered,
            withdrawn,
            lapsed,
            standing,
        } = self.totals;
        write!(f, "site {site} called {called} answered {answered}")?;
        writeln!(
            f,
            " withdrawn {withdrawn} lapsed {lapsed} standing {standing}"
        )
    }
}

// Bytes in hexadecimal.
#[derive(Clone, Copy)]
pub(crate) struct Hex<'a>(pub(crate) &'a [u8]);

impl<'a> fmt::Display for Hex<'a> {
    ghost output = { λ h. Some (hex_text h.0.now) };

    fn fmt<W: fmt::Write>(&self, f: &mut fmt::Formatter<W>) -> fmt::Result {
        for byte in self.0 {
            write_byte(f, *byte)?;
        }
        Ok(())
    }
}

// Writes a byte in hexadecimal.
fn write_byte<W: fmt::Write>(f: &mut fmt::Formatter<W>, byte: u8) -> fmt::Result
    ensures { WritesOnOk W.write_str_gives f.old result (byte_text byte) f.new }
{
    write!(f, "{byte:02x}")
}
