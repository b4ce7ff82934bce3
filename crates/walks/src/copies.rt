// Forms written anew: as they are, or with a value for a variable.
ghost use Rattle.std.specs.Prelude.{◌≡◌, ◌+◌, ◌≤◌, ◌++◌, length};
ghost use Rattle.orc.specs.Expressions.{bytes as form_bytes, size};
ghost use Rattle.orc.specs.Variables.{substitute};
ghost use Rattle.forms.specs.Heads.{expression, parameter_of};
ghost use Rattle.walks.specs.Contents.{content, HasRoom, Writes};
ghost use Rattle.walks.specs.Changes.{changed, changed_parameter, unless_bound};

use crate::buffer::{Buffer, add};
use crate::change::Change;
use crate::heads::put_call;
use crate::rooms::{check_room, head_of};
use fixed::full::Full;
use forms::command::Command;
use forms::form::{Form, Head, Parameter};

// The change in a part in which a variable is bound: none, if it is the variable that the value is for.
fn unless_bound(change: Option<Change>, bound: u8) -> Option<Change>
    ensures { result ≡ unless_bound change bound }
{
    change.filter(|change| change.variable != bound)
}

// A parameter once a change is made.
fn changed_parameter(change: Option<Change>, parameter: Parameter) -> Parameter
    ensures { parameter_of result ≡ changed_parameter change (parameter_of parameter) }
{
    match change {
        Some(Change { variable, value }) if parameter.is_variable(variable) => Parameter::Value(
            value,
        ),
        _ => parameter,
    }
}

// Writes a form for which there is room, with a change or none.
// Kept: that there is room is asked here, in `settle` and in what they call. How much is needed differs from call to call, so no
// type of a buffer can hold it.
pub(crate) fn put(out: &mut Buffer, form: Form, change: Option<Change>)
    requires { HasRoom out.old (size (expression form)) }
    ensures content { content out.new ≡ content out.old ++ form_bytes (changed change (expression form.entry)) }
    ensures len { length (content out.new) ≡ length (content out.old) + size (expression form.entry) }
{
    match head_of(form) {
        Head::Stop => add(out, &[Command::Stop as u8]),
        // Kept: an arm for each call. In one for both a site would be renamed a number, and the command be asked of the head again.
        Head::SiteCall { site, parameter } => put_call(
            out,
            Command::SiteCall,
            site,
            changed_parameter(change, parameter),
        ),
        Head::DefinitionCall { number, parameter } => put_call(
            out,
            Command::DefinitionCall,
            number,
            changed_parameter(change, parameter),
        ),
        Head::Parallel(f, g) => {
            add(out, &[Command::Parallel as u8]);
            put(out, f, change);
            put(out, g, change);
        }
        Head::Sequential(x, f, g) => {
            add(out, &[Command::Sequential as u8, x]);
            put(out, f, change);
            put(out, g, unless_bound(change, x));
        }
        Head::Pruning(x, f, g) => {
            add(out, &[Command::Pruning as u8, x]);
            put(out, f, unless_bound(change, x));
            put(out, g, change);
        }
        Head::Pending(call) => add(out, &call.to_bytes()),
    }
}

// The same, if there is room.
fn put_if_room(out: &mut Buffer, form: Form, change: Option<Change>) -> Result<(), Full>
    ensures { Writes out.old out.new result (size (expression form.entry)) (form_bytes (changed change (expression form.entry))) }
{
    check_room(out, form)?;
    put(out, form, change);
    Ok(())
}

// Writes a form as it is.
pub fn copy_into(form: Form, out: &mut Buffer) -> Result<(), Full>
    ensures { Writes out.old out.new result (size (expression form.entry)) (form_bytes (expression form.entry)) }
{
    put_if_room(out, form, None)
}

// Writes a form with a value for each free place of a variable. A part in which the variable is bound again is written as
// it is. The result is as long as the form.
pub fn substitute_into(form: Form, value: u16, variable: u8, out: &mut Buffer) -> Result<(), Full>
    ensures { Writes out.old out.new result (size (expression form.entry)) (form_bytes (substitute value variable (expression form.entry))) }
{
    put_if_room(out, form, Some(Change { variable, value }))
}
