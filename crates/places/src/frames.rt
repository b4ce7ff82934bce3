// The frames of a form: the operators that take a reply.
ghost use Rattle.std.specs.Prelude.{◌≡◌, ◌+◌, ◌^◌, ◌<◌, length, MatchOption, None};
ghost use Rattle.formats.specs.Widths.{width_of};
ghost use Rattle.forms.specs.Commands.{byte_of};
ghost use Rattle.forms.specs.Heads.{expression, IsForm};
ghost use Rattle.places.specs.Frames.{nearest_frame, Within};
ghost use Rattle.places.specs.Parts.{LiesIn, HasNearest};

use crate::stretch::Stretch;
use forms::command::Command;
use forms::form::{Form, Head};

// A part of a form: where it begins, and the frame that the form is around it, if it is one.
#[derive(Clone, Copy)]
struct Part<'a> {
    form: Form<'a>,
    at: usize,
    frame: Option<Stretch>,
}

// The part with a place, of the two that stand behind a command, each with the frame that is around it.
fn part_with<'a>(
    place: usize,
    command: Command,
    first: (Form<'a>, Option<Stretch>),
    second: (Form<'a>, Option<Stretch>),
) -> Option<Part<'a>>
    requires { width_of (byte_of command) + length first.0.bytes.now < 2 ^ 64 }
    ensures { LiesIn place (width_of (byte_of command)) first.entry second.entry result }
{
    let width = command.width();
    let middle = width + first.0.as_bytes().len();
    if place < width {
        return None;
    }
    let (at, (form, frame)) = if place < middle {
        (width, first)
    } else {
        (middle, second)
    };
    Some(Part { form, at, frame })
}

// The part of a form in which a place lies.
fn part_at<'a>(form: Form<'a>, place: usize) -> Option<Part<'a>>
    ensures { MatchOption result (IsForm form.entry.bytes.now → nearest_frame place (expression form.entry) ≡ None) (HasNearest form.entry.bytes.now place) }
{
    let whole = Some(Stretch {
        at: 0,
        end: form.as_bytes().len(),
    });
    match form.head() {
        Head::Parallel(f, g) => part_with(place, Command::Parallel, (f, None), (g, None)),
        Head::Sequential(_, f, g) => part_with(place, Command::Sequential, (f, whole), (g, None)),
        Head::Pruning(_, f, g) => part_with(place, Command::Pruning, (f, None), (g, whole)),
        _ => None,
    }
}

// The nearest frame around a place: a sequential with the place in its left part, or a pruning with it in its right part.
pub fn nearest_frame(form: Form, place: usize) -> Option<Stretch>
    ensures frame { IsForm form.entry.bytes.now → result ≡ nearest_frame place (expression form.entry) }
    ensures within { Within (length form.entry.bytes.now) result }
{
    let part = part_at(form, place)?;
    nearest_frame(part.form, place - part.at)
        .map(|frame| frame.shifted(part.at))
        .or(part.frame)
}
