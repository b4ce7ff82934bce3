// Due calls, made where they stand in a form.
ghost use Rattle.std.specs.Prelude.{◌≡◌, ℕ, ◌+◌, ◌<◌, List, length, drop, MatchOption};
ghost use Rattle.orc.specs.Expressions.{Definition as Defined, value as value_of, site_call, definition_call};
ghost use Rattle.forms.specs.Reading.{expression_of};
ghost use Rattle.files.specs.Contents.{file_of};
ghost use Rattle.steps.specs.Outcomes.{CallOutcome};

use crate::instance::Instance;
use crate::section::Section;
use crate::step::Step;
use events::act::Act;
use files::contents::{Contents, Definition};
use forms::command::Command;
use forms::form::{Form, Head};
use forms::measure::measured;
use forms::pending::Pending;
use walks::buffer::Buffer;

// What is read from a place of a form on, if the place is not behind its end.
fn form_at<'a>(form: Form<'a>, place: usize) -> Option<Form<'a>>
    ensures { MatchOption result (length form.entry.bytes.now < place) (λ f. f.bytes.now ≡ drop place form.entry.bytes.now) }
{
    form.as_bytes().get(place..).map(Form::new)
}

// Makes the site call with a value at a place of a form: it becomes a pending call.
// Kept: `ok()`, here and in the other transitions. Their callers prove that none is missing, so none asks why one is.
fn call_site<'b>(form: Form, place: usize, call: Pending, out: &'b mut Buffer) -> Option<Step<'b>>
    requires { site_call call.site (value_of call.value) ≡ expression_of (drop place form.bytes.now) }
    ensures { (ds : List Defined) → CallOutcome ds call.clock call.ticket form.entry.bytes.now place result }
{
    let due = Section::of_command(form, place, Command::SiteCall)?;
    let form = due.replaced(call.to_bytes(), out).ok()?;
    let Pending { site, value, .. } = call;
    Some(Step {
        act: Act::Called { site, value },
        form,
    })
}

// Makes the definition call with a value at a place of a form, if the definition is there: it becomes the definition's body
// with the value for its formal.
// Kept: a form and a place apart, here and above. Each makes a section of them in its first line, and a type before that would
// hold the same two for that one line. Contents, number and value come from three places.
fn unfold<'b>(
    form: Form,
    place: usize,
    contents: Contents,
    number: u8,
    value: u16,
    lengths: &mut [u16],
    out: &'b mut Buffer,
) -> Option<Step<'b>>
    requires { definition_call number (value_of value) ≡ expression_of (drop place form.bytes.now) }
    ensures { (t k : ℕ) → CallOutcome (file_of contents.entry.bytes.now).definitions t k form.entry.bytes.now place result }
{
    let due = Section::of_command(form, place, Command::DefinitionCall)?;
    let Definition { formal, body } = contents.definition(usize::from(number))?;
    let body = Instance {
        form: measured(body.as_bytes(), lengths),
        variable: formal,
        value,
    };
    let form = due.replaced(body, out).ok()?;
    Some(Step {
        act: Act::Inner,
        form,
    })
}

// Makes the due call at a place of a form: a site call becomes a pending call with the ticket and the clock, a definition
// call the definition's body with the value for its formal. All other bytes stay. There is none if nothing due stands there,
// if it calls a definition that there is not, or if there is no room. What is lent is a table to measure a body by, and a buffer
// for the form.
// Kept: seven parameters. It is public, and ticket and clock are a part of a pending call only once its site is known. Table and
// buffer are lent apart, since only the buffer stays lent to the step.
pub fn make_call<'b>(
    form: Form,
    place: usize,
    contents: Contents,
    ticket: u32,
    clock: u32,
    lengths: &mut [u16],
    out: &'b mut Buffer,
) -> Option<Step<'b>>
    ensures { CallOutcome (file_of contents.entry.bytes.now).definitions clock ticket form.entry.bytes.now place result }
{
    match form_at(form, place)?.head() {
        Head::SiteCall { site, parameter } => {
            let value = parameter.value()?;
            let call = Pending {
                ticket,
                site,
                value,
                clock,
            };
            call_site(form, place, call, out)
        }
        Head::DefinitionCall { number, parameter } => {
            let value = parameter.value()?;
            unfold(form, place, contents, number, value, lengths, out)
        }
        _ => None,
    }
}
