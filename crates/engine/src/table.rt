// The totals of all sites in fixed memory.
ghost use Rattle.std.specs.Prelude.{◌≡◌, length};

// How many sites there are.
pub(crate) const SITES: usize = 32;

// Tickets of one site, counted by what became of them.
#[derive(Clone, Copy, PartialEq, Eq, Debug, Default)]
pub struct Totals {
    pub(crate) called: u16,
    pub(crate) answered: u16,
    pub(crate) withdrawn: u16,
    pub(crate) lapsed: u16,
}

// What can become of a ticket: it is issued by a call, and it ends.
#[derive(Clone, Copy, PartialEq, Eq, Debug)]
pub(crate) enum Cause {
    Called,
    Answered,
    Withdrawn,
    Lapsed,
}

// One line of totals for each site.
#[derive(Clone, Copy)]
pub(crate) struct Table {
    pub(crate) lines: [Totals; SITES],
    ghost whole: { length lines ≡ 32 },
}
