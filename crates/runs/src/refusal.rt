// The refusals of a call. Each has a number, which mechanics know it by, and a place.
ghost use Rattle.std.specs.Prelude.{◌≡◌, Some};
ghost use Rattle.verdicts.specs.Verdicts.{verdict};
ghost use Rattle.runs.specs.Refusals.{told, is_limit};

use std::error::Error;
use std::fmt;
use verdicts::reason::{Notice, Reason};
use verdicts::verdict::Verdict;

#[derive(Clone, Copy, PartialEq, Eq, Debug)]
pub enum Refusal {
    NotLoaded,
    NoneDue(usize),
    NotStanding(u32),
    OutsideEveryWindow(u32),
    DueFirst(usize),
    Overdue(u32),
    ClockEnd(u32),
    Outgrown(usize),
    RecordFull,
}

impl Reason for Refusal {
    ghost told = { told };

    // The place is the count, ticket, clock or size that it is about.
    fn notice(&self) -> Notice {
        let (number, place, name) = match *self {
            Refusal::NotLoaded => (21, 0, "Not loaded"),
            Refusal::NoneDue(due) => (22, due, "None due"),
            Refusal::NotStanding(ticket) => (23, ticket as usize, "Not standing"),
            Refusal::OutsideEveryWindow(ticket) => (24, ticket as usize, "Outside every window"),
            Refusal::DueFirst(due) => (25, due, "Due first"),
            Refusal::Overdue(ticket) => (26, ticket as usize, "Overdue"),
            Refusal::ClockEnd(clock) => (27, clock as usize, "Clock end"),
            Refusal::Outgrown(size) => (28, size, "Outgrown"),
            Refusal::RecordFull => (29, 512, "Record full"),
        };
        Notice {
            number,
            place,
            name,
        }
    }
}

impl Refusal {
    // Whether it tells of a limit of the run, and not of a call that cannot be made.
    pub fn is_limit(&self) -> bool
        ensures { result ≡ is_limit self.now }
    {
        matches!(
            self,
            Refusal::ClockEnd(_) | Refusal::Outgrown(_) | Refusal::RecordFull
        )
    }
}

impl fmt::Display for Refusal {
    ghost output = { λ r. Some (verdict (told r)) };

    fn fmt<W: fmt::Write>(&self, f: &mut fmt::Formatter<W>) -> fmt::Result {
        Verdict(self).fmt(f)
    }
}

impl Error for Refusal {}
