// Small numbers: those of variables and sites.
ghost use Rattle.std.specs.Prelude.{◌≡◌, ◌<◌, MatchOption};

// The largest.
const LARGEST: u16 = 31;

// A number of a variable or a site, from 0 to the largest.
#[derive(Clone, Copy)]
pub(crate) struct Small {
    pub(crate) number: u8,
    ghost small: { number < 32 },
}

impl Small {
    // The number, if it is small.
    // Kept: an `Option`, and not `TryFrom`. Both callers have a fault of their own, so an error from here would be dropped.
    pub(crate) fn new(number: u16) -> Option<Small>
        ensures { MatchOption result (31 < number) (λ s. (s.number ≡ number) × (number < 32)) }
    {
        if number > LARGEST {
            return None;
        }
        Some(Small {
            number: number as u8,
        })
    }
}
