// A call of a site or a definition, written behind what a buffer holds.
ghost use Rattle.std.specs.Prelude.{◌≡◌, ◌+◌, ◌≤◌, ◌∷◌, ◌++◌, length};
ghost use Rattle.orc.specs.Expressions.{parameter_bytes};
ghost use Rattle.forms.specs.Commands.{byte_of};
ghost use Rattle.forms.specs.Heads.{parameter_of};
ghost use Rattle.walks.specs.Contents.{content, HasRoom};

use crate::buffer::{Buffer, add};
use forms::command::Command;
use forms::form::Parameter;

// Writes the bytes of such a call.
pub(crate) fn put_call(out: &mut Buffer, command: Command, number: u8, parameter: Parameter)
    requires { HasRoom out.old 5 }
    ensures len { length (content out.new) ≡ length (content out.old) + 5 }
    ensures content { content out.new ≡ content out.old ++ (byte_of command ∷ number ∷ parameter_bytes (parameter_of parameter)) }
{
    let [mark, high, low] = parameter.to_bytes();
    add(out, &[command as u8, number, mark, high, low]);
}
