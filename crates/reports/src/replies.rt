// What a site of the controller can reply to a value.
ghost use Rattle.std.specs.Prelude.{◌≡◌, true, is_ok, IfOk, Some, string_bytes, MatchResult};
ghost use Rattle.sheets.specs.Format.{Outcome, SheetOutcome};
ghost use Rattle.reports.specs.Replies.{controller, replies_line};
ghost use Rattle.reports.specs.Verdicts.{first_line, Begins};

use crate::controller::controller;
use crate::ranges::WindowRanges;
use crate::report::Report;
use crate::sheet::refusal_report;
use hosts::host::Host;
use sheets::row::Window;
use std::alloc::{AllocError, Global};
use std::fmt;

// The report on a call of a site with a value, for a controller with a sheet. A sheet that is refused is reported as such.
pub fn replies_report(
    heap: Global,
    sheet: &[u8],
    site: u8,
    value: u16,
) -> Result<Report, AllocError>
    ensures { IfOk result (λ t. (o : Outcome) × SheetOutcome sheet.now o × (t.accepted ≡ is_ok o) × MatchResult o (λ _. Begins (replies_line (controller o) site value) (string_bytes t.text)) (λ _. Begins (first_line o) (string_bytes t.text))) }
{
    match controller(sheet) {
        Ok(host) => {
            let call = Call {
                host: &host,
                site,
                value,
            };
            call.report(heap)
        }
        Err(fault) => refusal_report(heap, sheet, fault),
    }
}

// A call of a site of a host with a value.
#[derive(Drop)]
struct Call<'a, H> {
    host: &'a H,
    site: u8,
    value: u16,
}

// What is known of it, on a line: nothing, or how many windows it has and whether it may stay silent.
impl<'a, H: Host> fmt::Display for Call<'a, H> {
    ghost output = { λ c. Some (replies_line (H.Host.meaning c.host.now) c.site c.value) };

    fn fmt<W: fmt::Write>(&self, f: &mut fmt::Formatter<W>) -> fmt::Result {
        let Call { host, site, value } = *self;
        write!(f, "site {site} called with {value}: ")?;
        if !host.knows(site) {
            return writeln!(f, "unknown");
        }
        let count = host.window_count(site, value);
        if host.silent(site, value) {
            writeln!(f, "{count} windows, may stay silent")
        } else {
            writeln!(f, "{count} windows, always replies")
        }
    }
}

impl<'a, H: Host> Call<'a, H> {
    // The report on it: what is known of it, and then its windows.
    fn report(&self, heap: Global) -> Result<Report, AllocError>
        ensures { IfOk result (λ t. (t.accepted ≡ true) × Begins (replies_line (H.Host.meaning self.now.host.now) self.now.site self.now.value) (string_bytes t.text)) }
    {
        let windows = self.windows(heap)?;
        Ok(Report {
            text: format!(in heap; "{self}{windows}")?,
            accepted: true,
        })
    }

    // A line for each window.
    fn windows(&self, heap: Global) -> Result<String, AllocError> {
        let count = self.host.window_count(self.site, self.value);
        let mut text = String::new(heap);
        for window in (0..count).filter_map(|number| self.window(number)) {
            let WindowRanges {
                ticks,
                millis,
                values,
            } = WindowRanges::from(window);
            writeln!(
                text,
                "  ticks {ticks}, milliseconds {millis}, values {values}"
            )?;
        }
        Ok(text)
    }

    // The window of a number.
    fn window(&self, number: usize) -> Option<Window> {
        let (earliest, latest) = self.host.ticks(self.site, self.value, number)?;
        let (lowest, highest) = self.host.values(self.site, self.value, number)?;
        Some(Window {
            earliest,
            latest,
            lowest,
            highest,
        })
    }
}
