// Ranges of ticks, milliseconds and values in words.
ghost use Rattle.std.specs.Prelude.{◌≡◌, Some};
ghost use Rattle.reports.specs.Ranges.{range_text, ages_text};

use hosts::host::NO_END;
use sheets::row::Window;
use std::fmt;

const MILLIS_PER_TICK: u8 = 10;

// A range, both ends included.
#[derive(Clone, Copy)]
pub(crate) struct Range {
    from: u64,
    to: u64,
}

impl From<(u16, u16)> for Range {
    ghost from_gives = { λ ends r. (r.from ≡ ends.0) × (r.to ≡ ends.1) };

    fn from((from, to): (u16, u16)) -> Range {
        Range {
            from: u64::from(from),
            to: u64::from(to),
        }
    }
}

// `FROM to TO`, or the one number.
impl fmt::Display for Range {
    ghost output = { λ r. Some (range_text r.from r.to) };

    fn fmt<W: fmt::Write>(&self, f: &mut fmt::Formatter<W>) -> fmt::Result {
        let Range { from, to } = *self;
        if from == to {
            write!(f, "{from}")
        } else {
            write!(f, "{from} to {to}")
        }
    }
}

// The ages of a window, each tick counted as so many units.
#[derive(Clone, Copy)]
pub(crate) struct Ages {
    earliest: u32,
    latest: u32,
    unit: u8,
}

// Their range, or `FROM to no end`.
impl fmt::Display for Ages {
    ghost output = { λ a. Some (ages_text a.earliest a.latest a.unit) };

    fn fmt<W: fmt::Write>(&self, f: &mut fmt::Formatter<W>) -> fmt::Result {
        let unit = u64::from(self.unit);
        let from = u64::from(self.earliest) * unit;
        let to = u64::from(self.latest) * unit;
        if self.latest == NO_END {
            write!(f, "{from} to no end")
        } else {
            write!(f, "{}", Range { from, to })
        }
    }
}

// What a line of a window shows: its ages in ticks and in milliseconds, and its values.
#[derive(Clone, Copy)]
pub(crate) struct WindowRanges {
    pub(crate) ticks: Ages,
    pub(crate) millis: Ages,
    pub(crate) values: Range,
}

impl From<Window> for WindowRanges {
    fn from(window: Window) -> WindowRanges {
        let Window {
            earliest,
            latest,
            lowest,
            highest,
        } = window;
        WindowRanges {
            ticks: Ages {
                earliest,
                latest,
                unit: 1,
            },
            millis: Ages {
                earliest,
                latest,
                unit: MILLIS_PER_TICK,
            },
            values: Range::from((lowest, highest)),
        }
    }
}
