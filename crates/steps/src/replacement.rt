// What can be written in place of a stretch of a form.
ghost use Rattle.std.specs.Prelude.{ℕ, List};
ghost use Rattle.steps.specs.Built.{Added};

use fixed::full::Full;
use walks::buffer::Buffer;

// Something that is written as bytes.
// Kept: a trait, and not a closure for `put`. A type says once which bytes it is written as; each closure would say it again.
pub(crate) trait Replacement: Copy {
    // It says which bytes these are.
    ghost written: { Self → List ℕ };

    // Writes them behind what a buffer holds.
    fn put(self, out: &mut Buffer) -> Result<(), Full>
        ensures { Added out.old out.new result (written self) };
}

// Bytes as they are.
impl<const N: usize> Replacement for [u8; N] {
    ghost written = { λ bytes. bytes };

    fn put(self, out: &mut Buffer) -> Result<(), Full> {
        out.extend_from_slice(&self)
    }
}
