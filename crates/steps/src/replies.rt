// Replies to pending calls, taken where these stand in a form.
ghost use Rattle.std.specs.Prelude.{◌≡◌, ◌∷◌, ◌++◌, Some, None};
ghost use Rattle.orc.specs.Expressions.{Expression, sequential as sequential_of, pruning as pruning_of};
ghost use Rattle.forms.specs.Heads.{expression, IsForm};
ghost use Rattle.places.specs.Frames.{nearest_frame};
ghost use Rattle.steps.specs.Sections.{inside};
ghost use Rattle.steps.specs.Outcomes.{ReplyOutcome, around, FramedOutcome};

use crate::framed::{Beside, Framed};
use crate::instance::Instance;
use crate::reply::Reply;
use crate::section::Section;
use crate::step::Step;
use events::act::Act;
use forms::command::Command;
use forms::form::{Form, Head};
use places::frames::nearest_frame;
use places::stretch::Stretch;
use walks::buffer::Buffer;

// Answers the pending call at a place that no frame surrounds: it becomes stop, and the value is published.
fn publish<'b>(form: Form, place: usize, value: u16, out: &'b mut Buffer) -> Option<Reply<'b>>
    ensures { ReplyOutcome form.entry.bytes.now place value None result }
{
    let call = Section::of_command(form, place, Command::Pending)?;
    let form = call.replaced([Command::Stop as u8], out).ok()?;
    let act = Act::Out(value);
    Some(Reply {
        step: Step { act, form },
        pruned: None,
    })
}

// Answers a call in the left part of a sequential: a copy of the right part begins beside it, with the value for the
// variable, and the call becomes stop.
fn spawn<'b>(call: Framed, copy: Instance, out: &'b mut Buffer) -> Option<Reply<'b>>
    ensures { (f : Expression) → sequential_of copy.entry.variable f (expression copy.entry.form) ≡ around call.entry → FramedOutcome call.entry copy.entry.value result }
{
    let form = call.frame.replaced(Beside { call, copy }, out).ok()?;
    let act = Act::Inner;
    Some(Reply {
        step: Step { act, form },
        pruned: None,
    })
}

// Answers a call in the right part of a pruning: it becomes its left part, with the value for the variable, and the right
// part ends.
fn bind<'b>(call: Framed, left: Instance, right: Form, out: &'b mut Buffer) -> Option<Reply<'b>>
    requires { inside call.frame ≡ 5 ∷ left.variable ∷ (left.form.bytes.now ++ right.bytes.now) }
    ensures { IsForm right.entry.bytes.now → pruning_of left.entry.variable (expression left.entry.form) (expression right.entry) ≡ around call.entry → FramedOutcome call.entry left.entry.value result }
{
    let form = call.frame.replaced(left, out).ok()?;
    let Stretch { end, .. } = call.frame.stretch;
    let pruned = Stretch {
        at: end - right.as_bytes().len(),
        end,
    };
    let act = Act::Inner;
    Some(Reply {
        step: Step { act, form },
        pruned: Some(pruned),
    })
}

// Answers the pending call at a place to which a frame is the nearest.
fn hand_over<'b>(frame: Section, place: usize, value: u16, out: &'b mut Buffer) -> Option<Reply<'b>>
    ensures { IsForm (inside frame.entry) → ReplyOutcome frame.entry.form.bytes.now place value (Some frame.entry.stretch) result }
{
    let call = Framed::new(frame, place)?;
    match frame.inside().head() {
        Head::Sequential(variable, _, right) => {
            let copy = Instance {
                form: right,
                variable,
                value,
            };
            spawn(call, copy, out)
        }
        Head::Pruning(variable, left, right) => {
            let left = Instance {
                form: left,
                variable,
                value,
            };
            bind(call, left, right, out)
        }
        _ => None,
    }
}

// Answers the pending call at a place of a form with a value. The nearest frame takes it: a sequential begins a copy of its
// right part with the value for its variable, and a pruning becomes its left part with the value for its variable. Without
// a frame the value is published. There is none if no whole call can stand there, or if there is no room.
pub fn make_reply<'b>(
    form: Form,
    place: usize,
    value: u16,
    out: &'b mut Buffer,
) -> Option<Reply<'b>>
    ensures { IsForm form.entry.bytes.now → ReplyOutcome form.entry.bytes.now place value (nearest_frame place (expression form.entry)) result }
{
    match nearest_frame(form, place) {
        None => publish(form, place, value, out),
        Some(stretch) => hand_over(Section { form, stretch }, place, value, out),
    }
}
