// Rows and windows in fixed memory: a sheet has at most 64 rows, and a row at most four windows.
ghost use Rattle.std.specs.Prelude.{◌≡◌, [], map};
ghost use Rattle.sheets.specs.Rows.{row_of, rows_of, window_of};

use fixed::list::FixedList;

// How many rows a sheet can have.
pub(crate) const MOST_ROWS: usize = 64;

// How many windows a row can have.
pub(crate) const MOST_WINDOWS: usize = 4;

// The latest age of a window that has no end.
// Kept: a number for no end, as the sheet has it. It is not below any earliest age, so ages stay in order.
pub const NO_END: u32 = u32::MAX;

// One chance of a reply: ages in ticks and values, all four ends included.
#[derive(Clone, Copy, PartialEq, Eq, Default, Debug)]
pub struct Window {
    pub earliest: u32,
    pub latest: u32,
    pub lowest: u16,
    pub highest: u16,
}

// What a site may do when it is called with an argument from the first to the last.
#[derive(Clone, Copy)]
pub struct Row {
    site: u8,
    first: u16,
    last: u16,
    silent: bool,
    pub(crate) windows: FixedList<Window, MOST_WINDOWS>,
}

impl Row {
    // A row with no windows yet.
    pub(crate) fn new(site: u8, first: u16, last: u16, silent: bool) -> Row
        ensures { row_of result ≡ record { site = site; first = first; last = last; silent = silent; windows = [] } }
    {
        Row {
            site,
            first,
            last,
            silent,
            windows: FixedList::new(Window::default()),
        }
    }

    // The site that it speaks of.
    pub fn site(&self) -> u8
        ensures { result ≡ (row_of self.now).site }
    {
        self.site
    }

    // The first and the last argument that it speaks of.
    pub fn arguments(&self) -> (u16, u16)
        ensures first { result.0 ≡ (row_of self.now).first }
        ensures last { result.1 ≡ (row_of self.now).last }
    {
        (self.first, self.last)
    }

    // Whether the site may stay silent.
    pub fn silent(&self) -> bool
        ensures { result ≡ (row_of self.now).silent }
    {
        self.silent
    }

    // Its windows, in their order.
    pub fn windows(&self) -> &[Window]
        ensures { map window_of result.now ≡ (row_of self.now).windows }
    {
        self.windows.as_slice()
    }
}

// No rows yet. A place that is unused holds a row of zeros.
pub(crate) fn no_rows() -> FixedList<Row, MOST_ROWS>
    ensures { rows_of result ≡ [] }
{
    FixedList::new(Row::new(0, 0, 0, false))
}
