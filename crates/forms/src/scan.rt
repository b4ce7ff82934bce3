// The scan for the end of a form, command by command.
ghost use Rattle.std.specs.Prelude.{◌≡◌, ℕ, List, IfSome, Some, MatchOption};
ghost use Rattle.formats.specs.Operands.{byte_at};
ghost use Rattle.forms.specs.Commands.{byte_of};
ghost use Rattle.forms.specs.Shapes.{WholeCommand, ExactCommand, FormBy};

use crate::command::Command;
use crate::mark::Mark;

// A rule for the commands of a form.
pub(crate) trait Rule {
    // It says at which offsets of some bytes a command may stand.
    ghost Stands: { List ℕ → ℕ → Type 0 };

    // The command at an offset, if it may stand there.
    fn command(bytes: &[u8], at: usize) -> Option<Command>
        ensures { MatchOption result (Stands bytes.now at → ⊥) (λ c. (byte_of c ≡ byte_at bytes.now at) × Stands bytes.now at) };

    ghost whole: { (bs : List ℕ) (at : ℕ) → Stands bs at → WholeCommand bs at };
}

// Any command of a form with all of its operands.
pub(crate) struct Whole;

// The same, if it is a command as an expression has it.
pub(crate) struct Exact;

impl Rule for Whole {
    ghost Stands = { WholeCommand };

    ghost whole = { λ bs at whole. whole };

    fn command(bytes: &[u8], at: usize) -> Option<Command> {
        let command = Command::try_from(*bytes.get(at)?).ok()?;
        (command.width() <= bytes.len() - at).then_some(command)
    }
}

impl Rule for Exact {
    ghost Stands = { ExactCommand };

    ghost whole = { λ bs at exact. exact.command };

    fn command(bytes: &[u8], at: usize) -> Option<Command> {
        let command = Whole::command(bytes, at)?;
        if command.has_parameter() && Mark::try_from(bytes[at + 2]).is_err() {
            return None;
        }
        Some(command)
    }
}

// The offset behind the form that begins at an offset, if the bytes there have the shape of one by a rule.
pub(crate) fn scan<R: Rule>(bytes: &[u8], at: usize) -> Option<usize>
    ensures found { IfSome result (λ end. FormBy (R.Stands bytes.now) bytes.now at end) }
    ensures only { (end : ℕ) → FormBy (R.Stands bytes.now) bytes.now at end → result ≡ Some end }
{
    // Kept: a loop with an offset, since only the command that was read says where the next one stands.
    let mut end = at;
    let mut open: usize = 1;
    while open > 0 {
        let command = R::command(bytes, end)?;
        end += command.width();
        if command.is_split() {
            open += 1;
        } else {
            open -= 1;
        }
    }
    Some(end)
}
