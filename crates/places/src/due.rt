// The due calls of a form: how many there are, and where each stands.
//
// They are met in one pass over the bytes, from the left, which needs no table of lengths: a part that has been passed tells what stands
// behind it. Only a sequential's right part, in which nothing is due, is scanned for its end, and that only where something of the form
// follows; what stands behind the last part that counts is not read.
ghost use Rattle.std.specs.Prelude.{◌≡◌, ◌+◌, ◌<◌, ◌≤◌, length, is_some, IfSome, MatchOption, MatchResult, nat_lt};
ghost use Rattle.formats.specs.Operands.{byte_at};
ghost use Rattle.orc.specs.Calls.{due_count, ready};
ghost use Rattle.forms.specs.Commands.{byte_of};
ghost use Rattle.forms.specs.Heads.{expression, IsForm};
ghost use Rattle.forms.specs.Reading.{parameter_at, expression_of};
ghost use Rattle.forms.specs.Shapes.{WholeCommand};
ghost use Rattle.places.specs.Places.{due_place, PassesAll};
ghost use Rattle.places.specs.Passing.{rest_of, BeginsAs, BeginsThere, LeavesBehind};

use forms::command::Command;
use forms::ends::form_end;
use forms::form::Form;
use forms::mark::Mark;

// A form whose due calls have all been passed: how many they are, and what stands behind it.
#[derive(Clone, Copy)]
struct Passed<'a> {
    count: usize,
    behind: &'a [u8],
}

// What a form begins with, as far as due calls go.
#[derive(Clone, Copy)]
enum Front<'a> {
    // It has no parts, and is passed at once.
    Alone(Passed<'a>),
    // It has two parts, which are read from here on, and calls are due in both,
    Both(&'a [u8]),
    // or only in the first.
    First(&'a [u8]),
}

// The command that some bytes begin with, if it is there with all of its operands.
fn first_command(bytes: &[u8]) -> Option<Command>
    ensures { MatchOption result (WholeCommand bytes.now 0 → ⊥) (λ c. (byte_of c ≡ byte_at bytes.now 0) × WholeCommand bytes.now 0) }
{
    let command = Command::try_from(*bytes.first()?).ok()?;
    (command.width() <= bytes.len()).then_some(command)
}

// How many due calls a call with a parameter is, which some bytes begin with: one with a value, none with a variable.
fn ready_calls(bytes: &[u8]) -> usize
    requires { 3 ≤ length bytes.now }
    ensures { result ≡ ready (parameter_at bytes.now 2) }
{
    usize::from(bytes[2] == Mark::Value as u8)
}

impl<'a> Front<'a> {
    // What some bytes begin with. Where no command stands whole, that is stop, with nothing behind it.
    fn read(bytes: &'a [u8]) -> Front<'a>
        ensures { BeginsAs bytes.now result }
    {
        let Some(command) = first_command(bytes) else {
            return Front::Alone(Passed {
                count: 0,
                behind: &[],
            });
        };
        let behind = &bytes[command.width()..];
        match command {
            Command::Stop | Command::Pending => Front::Alone(Passed { count: 0, behind }),
            Command::SiteCall | Command::DefinitionCall => Front::Alone(Passed {
                count: ready_calls(bytes),
                behind,
            }),
            Command::Parallel | Command::Pruning => Front::Both(behind),
            Command::Sequential => Front::First(behind),
        }
    }
}

// What stands behind the form that some bytes begin with.
fn behind_form<'a>(bytes: &'a [u8]) -> &'a [u8]
    ensures behind { result.now ≡ rest_of bytes.now }
    ensures within { length result.now ≤ length bytes.now }
{
    let end = form_end(bytes, 0).unwrap_or(bytes.len());
    &bytes[end..]
}

impl<'a> Passed<'a> {
    ghost use Rattle.std.specs.Prelude.{◌≡◌, ◌+◌, ◌^◌, ◌<◌};
    ghost use Rattle.places.specs.Passing.{rest_of};

    // Both parts of a form have been passed, this one first.
    fn joined(self, second: Passed<'a>) -> Passed<'a>
        requires { self.count + second.count < 2 ^ 64 }
        ensures count { result.count ≡ self.entry.count + second.entry.count }
        ensures behind { result.behind ≡ second.entry.behind }
    {
        Passed {
            count: self.count + second.count,
            behind: second.behind,
        }
    }

    // A sequential has been passed: this is its left part, and nothing is due in the right part, which stands behind it.
    fn with_right(self) -> Passed<'a>
        ensures count { result.count ≡ self.entry.count }
        ensures behind { result.behind.now ≡ rest_of self.entry.behind.now }
        ensures within { length result.behind.now ≤ length self.entry.behind.now }
    {
        Passed {
            count: self.count,
            behind: behind_form(self.behind),
        }
    }
}

// Passes the form that some bytes begin with.
fn pass<'a>(bytes: &'a [u8]) -> Passed<'a>
    ensures count { result.count ≡ due_count (expression_of bytes.now) }
    ensures behind { LeavesBehind bytes.now result }
{
    match Front::read(bytes) {
        Front::Alone(passed) => passed,
        Front::Both(parts) => {
            let first = pass(parts);
            first.joined(pass(first.behind))
        }
        Front::First(parts) => pass(parts).with_right(),
    }
}

// How many calls are due in the form that some bytes begin with. What stands behind it is not looked for.
fn due_in(bytes: &[u8]) -> usize
    ensures count { result ≡ due_count (expression_of bytes.now) }
    ensures few { result ≤ length bytes.now }
{
    match Front::read(bytes) {
        Front::Alone(passed) => passed.count,
        Front::Both(parts) => {
            let first = pass(parts);
            first.count + due_in(first.behind)
        }
        Front::First(parts) => due_in(parts),
    }
}

// How many calls of a form are due.
pub fn due_count(form: Form) -> usize
    ensures count { result ≡ due_count (expression form.entry) }
    ensures few { result ≤ length form.entry.bytes.now }
{
    due_in(form.as_bytes())
}

// The bytes from the due call n on in the form that some bytes begin with, or else that all of it has been passed.
// Kept: what was passed as the error, as a binary search has the place where it stopped. In closures the two parts would nest.
fn seek<'a>(bytes: &'a [u8], n: usize) -> Result<&'a [u8], Passed<'a>>
    ensures { MatchResult result
        (λ call. BeginsThere bytes.now n call.now)
        (λ p. PassesAll bytes.now n p.count × LeavesBehind bytes.now p) }
{
    match Front::read(bytes) {
        Front::Alone(passed) if n < passed.count => Ok(bytes),
        Front::Alone(passed) => Err(passed),
        Front::Both(parts) => match seek(parts, n) {
            Ok(call) => Ok(call),
            Err(first) => match seek(first.behind, n - first.count) {
                Ok(call) => Ok(call),
                Err(second) => Err(first.joined(second)),
            },
        },
        Front::First(parts) => match seek(parts, n) {
            Ok(call) => Ok(call),
            Err(first) => Err(first.with_right()),
        },
    }
}

// The bytes from the due call n on in the form that some bytes begin with. What stands behind it is not looked for.
fn find<'a>(bytes: &'a [u8], n: usize) -> Option<&'a [u8]>
    ensures { MatchOption result
        (PassesAll bytes.now n (due_count (expression_of bytes.now)))
        (λ call. BeginsThere bytes.now n call.now) }
{
    match Front::read(bytes) {
        Front::Alone(passed) => (n < passed.count).then_some(bytes),
        Front::Both(parts) => {
            let first = match seek(parts, n) {
                Ok(call) => return Some(call),
                Err(first) => first,
            };
            find(first.behind, n - first.count)
        }
        Front::First(parts) => find(parts, n),
    }
}

// The offset of the due call n of a form, counted from the left, from 0.
// Kept: that the bytes are a form is a premise, here and in the other searches. They take any bytes, and promise more of a form.
pub fn due_place(form: Form, n: usize) -> Option<usize>
    ensures place { IsForm form.entry.bytes.now → result ≡ due_place n (expression form.entry) }
    ensures found { is_some result ≡ nat_lt n (due_count (expression form.entry)) }
    ensures within { IfSome result (λ p. p < length form.entry.bytes.now) }
{
    let bytes = form.as_bytes();
    let call = find(bytes, n)?;
    Some(bytes.len() - call.len())
}
