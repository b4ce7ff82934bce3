// Pending calls within frames.
ghost use Rattle.std.specs.Prelude.{◌≡◌, ◌+◌, ◌≤◌, ◌∷◌, ◌++◌, MatchOption};
ghost use Rattle.std.specs.List.{between};
ghost use Rattle.steps.specs.Built.{Added};

use crate::instance::Instance;
use crate::replacement::Replacement;
use crate::section::Section;
use fixed::full::Full;
use forms::command::Command;
use places::stretch::Stretch;
use walks::buffer::Buffer;

// A frame, and the place of a pending call that lies within it.
#[derive(Clone, Copy)]
pub(crate) struct Framed<'a> {
    pub(crate) frame: Section<'a>,
    pub(crate) place: usize,
    pub(crate) ghost before: { frame.stretch.at ≤ place },
    pub(crate) ghost behind: { place + 12 ≤ frame.stretch.end },
}

impl<'a> Framed<'a> {
    ghost use Rattle.steps.specs.Framings.{stopped};

    // The pending call at a place, if it lies within a frame.
    pub(crate) fn new(frame: Section<'a>, place: usize) -> Option<Framed<'a>>
        ensures { MatchOption result
            (frame.entry.stretch.at ≤ place → place + 12 ≤ frame.entry.stretch.end → ⊥)
            (λ c. (c.frame ≡ frame.entry) × (c.place ≡ place)) }
    {
        let call = Section::of_command(frame.form, place, Command::Pending)?;
        if place < frame.stretch.at || frame.stretch.end < call.stretch.end {
            return None;
        }
        Some(Framed { frame, place })
    }

    // Writes the frame with stop in place of the call.
    fn put_stopped(self, out: &mut Buffer) -> Result<(), Full>
        ensures { Added out.old out.new result (stopped self.entry) }
    {
        let bytes = self.frame.form.as_bytes();
        let Stretch { at, end } = self.frame.stretch;
        let behind = self.place + Command::Pending.width();
        out.extend_from_slice(&bytes[at..self.place])?;
        out.push(Command::Stop as u8)?;
        out.extend_from_slice(&bytes[behind..end])
    }
}

// A frame with stop in place of a call, and beside it, in parallel, a copy of its right part.
#[derive(Clone, Copy)]
pub(crate) struct Beside<'a> {
    pub(crate) call: Framed<'a>,
    pub(crate) copy: Instance<'a>,
}

impl<'a> Replacement for Beside<'a> {
    ghost use Rattle.steps.specs.Framings.{beside};

    ghost written = { beside };

    fn put(self, out: &mut Buffer) -> Result<(), Full> {
        out.push(Command::Parallel as u8)?;
        self.call.put_stopped(out)?;
        self.copy.put(out)
    }
}
