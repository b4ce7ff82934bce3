// What a picture shows: the calls of sites, each with its ticket, and the publications.
ghost use Rattle.std.specs.Prelude.{◌≡◌, Some};
ghost use Rattle.pictures.specs.Drawings.{mark_of, tick_of, ending_text, label_text, value_text};

use std::fmt;

// How a call ended, and at which tick: answered with a value, withdrawn, lapsed, or not yet.
#[derive(Clone, Copy)]
pub enum Ending {
    Answered { value: u16, at: u32 },
    Withdrawn { at: u32 },
    Lapsed { at: u32 },
    Standing,
}

// A call of a site with a value, from the tick of the call to that of its end. While it stands, it has no end: its bar goes
// to the run's clock.
#[derive(Clone, Copy)]
pub struct Lane {
    pub ticket: u32,
    pub site: u8,
    pub value: u16,
    pub from: u32,
    pub end: Ending,
}

// A value that was published at a tick.
#[derive(Clone, Copy)]
pub struct Publication {
    pub clock: u32,
    pub value: u16,
}

impl Ending {
    // The character that ends a bar.
    pub fn mark(&self) -> &'static str
        ensures { result.now ≡ mark_of self.now }
    {
        match self {
            Ending::Answered { .. } => "x",
            Ending::Withdrawn { .. } => "/",
            Ending::Lapsed { .. } => "!",
            Ending::Standing => ">",
        }
    }

    // The tick of the end, or none while the call stands.
    pub(crate) fn tick(&self) -> Option<u32>
        ensures { result ≡ tick_of self.now }
    {
        match self {
            Ending::Answered { at, .. } | Ending::Withdrawn { at } | Ending::Lapsed { at } => {
                Some(*at)
            }
            Ending::Standing => None,
        }
    }
}

// How a call ended, in words, with the tick.
impl fmt::Display for Ending {
    ghost output = { λ e. Some (ending_text e) };

    fn fmt<W: fmt::Write>(&self, f: &mut fmt::Formatter<W>) -> fmt::Result {
        match self {
            Ending::Answered { value, at } => write!(f, "answered {value} at {at}"),
            Ending::Withdrawn { at } => write!(f, "withdrawn at {at}"),
            Ending::Lapsed { at } => write!(f, "lapsed at {at}"),
            Ending::Standing => f.write_str("standing"),
        }
    }
}

// What stands in front of the call's bar.
impl fmt::Display for Lane {
    ghost output = { λ l. Some (label_text l) };

    fn fmt<W: fmt::Write>(&self, f: &mut fmt::Formatter<W>) -> fmt::Result {
        let Lane {
            ticket,
            site,
            value,
            ..
        } = self;
        write!(f, "ticket {ticket}  site {site} ({value})")
    }
}

// `35: 7`
impl fmt::Display for Publication {
    ghost output = { λ p. Some (value_text p) };

    fn fmt<W: fmt::Write>(&self, f: &mut fmt::Formatter<W>) -> fmt::Result {
        let Publication { clock, value } = self;
        write!(f, "{clock}: {value}")
    }
}
