// How many ticks one column of a picture stands for.
ghost use Rattle.std.specs.Prelude.{◌≡◌, ◌*◌, ◌/◌, ◌<◌, min, nat_lt, find};
ghost use Rattle.pictures.specs.Drawings.{Scale};

// How many columns a picture has at most.
const WIDTH: u32 = 60;

// The scales of the series 1, 2, 5, 10, 20, 50 and so on, up to the last but one that a clock can need.
const STEPS: [u32; 24] = [
    1, 2, 5, 10, 20, 50, 100, 200, 500, 1000, 2000, 5000, 10000, 20000, 50000, 100000, 200000,
    500000, 1000000, 2000000, 5000000, 10000000, 20000000, 50000000,
];

// The scale after them, at which every clock fits.
const LARGEST: u32 = 100_000_000;

// The ticks that one column stands for: at least one.
#[derive(Clone, Copy)]
pub(crate) struct Spacing {
    pub(crate) ticks: u32,
    ghost positive: { 0 < ticks },
}

impl Spacing {
    // The smallest scale of the series at which a clock fits into the width.
    pub(crate) fn of(clock: u32) -> Spacing
        ensures { Scale clock result.ticks }
    {
        let ticks = first_fit(clock, &STEPS).unwrap_or(LARGEST);
        Spacing { ticks }
    }

    // The column of a tick: the last one for a tick that is past it.
    pub(crate) fn column(&self, tick: u32) -> u8
        ensures { result ≡ min (tick / self.now.ticks) 59 }
    {
        (tick / self.ticks).min(WIDTH - 1) as u8
    }
}

// The smallest scale of the series at which a clock fits into the width.
pub fn scale(clock: u32) -> u32
    ensures { Scale clock result }
{
    Spacing::of(clock).ticks
}

// The first step at which a clock fits into the width.
fn first_fit(clock: u32, steps: &[u32]) -> Option<u32>
    ensures { result ≡ find (λ ticks. nat_lt clock (60 * ticks)) steps.now }
{
    steps.iter().copied().find(|ticks| fits(clock, *ticks))
}

// Whether a clock has a column among those of the width.
fn fits(clock: u32, ticks: u32) -> bool
    ensures { result ≡ nat_lt clock (60 * ticks) }
{
    u64::from(clock) < u64::from(WIDTH) * u64::from(ticks)
}
