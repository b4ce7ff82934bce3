// A stretch of a form's bytes, to be read or replaced.
ghost use Rattle.std.specs.Prelude.{◌≡◌, ◌+◌, ◌<◌, ◌≤◌, length, MatchOption};
ghost use Rattle.formats.specs.Widths.{width_of};
ghost use Rattle.forms.specs.Commands.{byte_of};
ghost use Rattle.steps.specs.Built.{Built};

use crate::replacement::Replacement;
use fixed::full::Full;
use forms::command::Command;
use forms::form::Form;
use places::stretch::Stretch;
use walks::buffer::Buffer;

// A form, and a stretch of its bytes.
#[derive(Clone, Copy)]
pub(crate) struct Section<'a> {
    pub(crate) form: Form<'a>,
    pub(crate) stretch: Stretch,
    pub(crate) ghost within: { stretch.end ≤ length form.bytes.now },
}

impl<'a> Section<'a> {
    ghost use Rattle.steps.specs.Sections.{inside, replaced, StandsAt};

    // The bytes of a command with its operands at a place of a form, if the form has as many there.
    pub(crate) fn of_command(form: Form<'a>, place: usize, command: Command) -> Option<Section<'a>>
        ensures { MatchOption result
            (length form.entry.bytes.now < place + width_of (byte_of command))
            (StandsAt form.entry.bytes.now place (width_of (byte_of command))) }
    {
        let end = place.checked_add(command.width())?;
        if end > form.as_bytes().len() {
            return None;
        }
        let stretch = Stretch { at: place, end };
        Some(Section { form, stretch })
    }

    // What is read from it.
    pub(crate) fn inside(self) -> Form<'a>
        ensures { result.bytes.now ≡ inside self.entry }
    {
        let Stretch { at, end } = self.stretch;
        self.form.get(at, end).unwrap()
    }

    // The whole form with something else in place of the stretch, in a buffer. What that held does not count.
    pub(crate) fn replaced<'b, R: Replacement>(
        self,
        new: R,
        out: &'b mut Buffer,
    ) -> Result<&'b Buffer, Full>
        ensures { Built result (replaced self.entry (R.written new)) }
    {
        let bytes = self.form.as_bytes();
        let Stretch { at, end } = self.stretch;
        out.clear();
        out.extend_from_slice(&bytes[..at])?;
        new.put(out)?;
        out.extend_from_slice(&bytes[end..])?;
        Ok(out)
    }
}
