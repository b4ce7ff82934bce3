// What a host tells of its sites. Any site byte, value and number may be asked.
ghost use Rattle.std.specs.Prelude.{◌≡◌, length};
ghost use Rattle.orc.specs.Meaning.{Meaning, Lawful, handle, is_known};
ghost use Rattle.hosts.specs.Answers.{ticks_at, values_at};

pub use sheets::row::NO_END;

// Kept: site, value and number as they are, and the two ends of a window in pairs. The trait is public, and who writes a host or
// asks one would have to make a type first.
pub trait Host {
    // What each site can reply to each value, and when. It stays as it is for the life of a run.
    ghost meaning: { Self → Meaning };

    // It keeps the ranges and laws of a meaning.
    ghost laws: { (h : Self) → Lawful (meaning h) };

    // Whether a site is known.
    fn knows(&self, site: u8) -> bool
        ensures { result ≡ is_known (meaning self.now site) };

    // How many windows a call has. A call of an unknown site has none.
    fn window_count(&self, site: u8, value: u16) -> usize
        ensures { result ≡ length (handle (meaning self.now) site value).windows };

    // The earliest and the latest age of a window, by its number from 0. A latest of 4,294,967,295 means no end.
    fn ticks(&self, site: u8, value: u16, number: usize) -> Option<(u32, u32)>
        ensures { result ≡ ticks_at (handle (meaning self.now) site value) number };

    // The lowest and the highest value of a window, by its number from 0.
    fn values(&self, site: u8, value: u16, number: usize) -> Option<(u16, u16)>
        ensures { result ≡ values_at (handle (meaning self.now) site value) number };

    // Whether a call may stay unanswered for ever.
    fn silent(&self, site: u8, value: u16) -> bool
        ensures { result ≡ (handle (meaning self.now) site value).silent };
}
