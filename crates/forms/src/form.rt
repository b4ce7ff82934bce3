// A form, its head and its parts.
ghost use Rattle.forms.specs.Lengths.{Told};

use crate::command::Command;
use crate::ends::form_end;
use crate::mark::Mark;
use crate::measure::{length_at, lengths_from};
use crate::pending::Pending;
use crate::scan::{Rule, Whole};
use formats::operands::Operand;

// Bytes that are read as a form. What stands behind a complete form does not count, and where the bytes are no form, what
// cannot be read is stop.
//
// Beside the bytes stands a table, which may be shorter or empty. Where it has a number, that is how many bytes the form has that
// begins at this offset, so that its end need not be looked for. What is read is the same with any table.
#[derive(Clone, Copy)]
pub struct Form<'a> {
    pub(crate) bytes: &'a [u8],
    pub(crate) lengths: &'a [u16],
    ghost told: { Told bytes.now lengths.now },
}

// What a call is made with: a value, or a variable whose value has yet to arrive.
#[derive(Clone, Copy, PartialEq, Eq, Debug)]
pub enum Parameter {
    Value(u16),
    Variable(u16),
}

// A form's command with its operands, and its parts, which are stretches of the form itself.
#[derive(Clone, Copy)]
pub enum Head<'a> {
    Stop,
    SiteCall { site: u8, parameter: Parameter },
    DefinitionCall { number: u8, parameter: Parameter },
    Parallel(Form<'a>, Form<'a>),
    Sequential(u8, Form<'a>, Form<'a>),
    Pruning(u8, Form<'a>, Form<'a>),
    Pending(Pending),
}

impl Parameter {
    ghost use Rattle.std.specs.Prelude.{◌≡◌, ℕ, ◌+◌, ◌≤◌, length, MatchOption, ◌≢◌};
    ghost use Rattle.orc.specs.Expressions.{value, parameter_bytes};
    ghost use Rattle.orc.specs.Variables.{is_variable};
    ghost use Rattle.forms.specs.Heads.{parameter_of};
    ghost use Rattle.forms.specs.Reading.{parameter_at};

    // The parameter at an offset.
    fn read(bytes: &[u8], at: usize) -> Parameter
        requires { at + 3 ≤ length bytes.now }
        ensures { parameter_of result ≡ parameter_at bytes.now at }
    {
        let number = u16::at(bytes, at + 1).unwrap();
        match Mark::try_from(bytes[at]) {
            Ok(Mark::Value) => Parameter::Value(number),
            _ => Parameter::Variable(number),
        }
    }

    // Its value, if it is one.
    pub fn value(self) -> Option<u16>
        ensures { MatchOption result ((v : ℕ) → parameter_of self ≢ value v) (λ v. parameter_of self ≡ value v) }
    {
        match self {
            Parameter::Value(value) => Some(value),
            Parameter::Variable(_) => None,
        }
    }

    // Whether it is this variable.
    pub fn is_variable(self, variable: u8) -> bool
        ensures { result ≡ is_variable variable (parameter_of self) }
    {
        matches!(self, Parameter::Variable(x) if u16::from(variable) == x)
    }

    // Its bytes: the mark, and the number with the higher byte first.
    // Kept: byte by byte. What joins arrays gives a `Vec`, and a library has no heap.
    pub fn to_bytes(self) -> [u8; 3]
        ensures { result ≡ parameter_bytes (parameter_of self) }
    {
        let (mark, number) = match self {
            Parameter::Value(value) => (Mark::Value, value),
            Parameter::Variable(variable) => (Mark::Variable, variable),
        };
        let [high, low] = number.to_be_bytes();
        [mark as u8, high, low]
    }
}

impl<'a> Head<'a> {
    ghost use Rattle.std.specs.Prelude.{◌≡◌};
    ghost use Rattle.forms.specs.Heads.{parts_of, command_of};

    // The command that it begins with.
    pub fn command(self) -> Command
        ensures { result ≡ command_of self.entry }
    {
        match self {
            Head::Stop => Command::Stop,
            Head::SiteCall { .. } => Command::SiteCall,
            Head::DefinitionCall { .. } => Command::DefinitionCall,
            Head::Parallel(..) => Command::Parallel,
            Head::Sequential(..) => Command::Sequential,
            Head::Pruning(..) => Command::Pruning,
            Head::Pending(_) => Command::Pending,
        }
    }

    // Its parts, if it has any.
    pub fn parts(self) -> Option<(Form<'a>, Form<'a>)>
        ensures { result ≡ parts_of self.entry }
    {
        match self {
            Head::Parallel(f, g) | Head::Sequential(_, f, g) | Head::Pruning(_, f, g) => {
                Some((f, g))
            }
            _ => None,
        }
    }
}

impl<'a> Form<'a> {
    ghost use Rattle.std.specs.Prelude.{◌≡◌, ℕ, ◌≤◌, length, take, drop, IfSome, Some, MatchOption};
    ghost use Rattle.std.specs.List.{between};
    ghost use Rattle.orc.specs.Expressions.{size};
    ghost use Rattle.forms.specs.Shapes.{FormAt};
    ghost use Rattle.forms.specs.Heads.{expression, headed, IsForm, MadeOf, Longer, MadeOfForms, TwoParts};

    // Any bytes, to be read as a form.
    pub fn new(bytes: &'a [u8]) -> Form<'a>
        ensures { result.bytes.now ≡ bytes.now }
    {
        let lengths = &[];
        Form { bytes, lengths }
    }

    // The bytes that it is read from.
    pub fn as_bytes(self) -> &'a [u8]
        ensures { result.now ≡ self.entry.bytes.now }
    {
        self.bytes
    }

    // How many bytes the form has that stands at the front, if one does: as the table tells, or else by a scan.
    fn end(self) -> Option<usize>
        ensures found { IfSome result (λ end. FormAt self.entry.bytes.now 0 end) }
        ensures only { (end : ℕ) → FormAt self.entry.bytes.now 0 end → result ≡ Some end }
    {
        let told = length_at(self.lengths, 0);
        if told > 0 && told <= self.bytes.len() {
            return Some(told);
        }
        form_end(self.bytes, 0)
    }

    // How many bytes the expression has that is read from it, if a form stands whole at its front.
    pub fn size(self) -> Option<usize>
        ensures { MatchOption result ((n : ℕ) → FormAt self.entry.bytes.now 0 n → ⊥) (λ n. FormAt self.entry.bytes.now 0 n × (size (expression self.entry) ≡ n)) }
    {
        self.end()
    }

    // The stretch from an offset up to another, if it is there, to be read as a form.
    pub fn get(self, at: usize, end: usize) -> Option<Form<'a>>
        ensures { MatchOption result (at ≤ end → end ≤ length self.entry.bytes.now → ⊥) (λ f. (at ≤ end) × (end ≤ length self.entry.bytes.now) × (f.bytes.now ≡ between at end self.entry.bytes.now)) }
    {
        if at > end || end > self.bytes.len() {
            return None;
        }
        Some(self.behind(at).before(end - at))
    }

    // What stands from an offset on.
    fn behind(self, at: usize) -> Form<'a>
        requires { at ≤ length self.bytes.now }
        ensures { result.bytes.now ≡ drop at self.entry.bytes.now }
    {
        Form {
            bytes: &self.bytes[at..],
            lengths: lengths_from(self.lengths, at),
        }
    }

    // What stands in front of an offset.
    fn before(self, at: usize) -> Form<'a>
        requires { at ≤ length self.bytes.now }
        ensures { result.bytes.now ≡ take at self.entry.bytes.now }
    {
        Form {
            bytes: &self.bytes[..at],
            lengths: self.lengths,
        }
    }

    // The two parts that stand behind a command of a width, one behind the other.
    fn parts(self, width: usize) -> (Form<'a>, Form<'a>)
        requires { width ≤ length self.bytes.now }
        ensures { TwoParts (drop width self.entry.bytes.now) result.0.bytes.now result.1.bytes.now }
    {
        let both = self.behind(width);
        let end = both.end().unwrap_or(both.bytes.len());
        (both.before(end), both.behind(end))
    }

    // Its command with the operands, and its parts.
    pub fn head(self) -> Head<'a>
        ensures expression { headed result ≡ expression self.entry }
        ensures parts { MadeOf self.entry.bytes.now result }
        ensures longer { Longer (length self.entry.bytes.now) result }
        ensures forms { IsForm self.entry.bytes.now → MadeOfForms result }
    {
        let bytes = self.bytes;
        let Some(command) = Whole::command(bytes, 0) else {
            return Head::Stop;
        };
        match command {
            Command::Stop => Head::Stop,
            Command::SiteCall => Head::SiteCall {
                site: bytes[1],
                parameter: Parameter::read(bytes, 2),
            },
            Command::DefinitionCall => Head::DefinitionCall {
                number: bytes[1],
                parameter: Parameter::read(bytes, 2),
            },
            Command::Parallel => {
                let (f, g) = self.parts(1);
                Head::Parallel(f, g)
            }
            Command::Sequential => {
                let (f, g) = self.parts(2);
                Head::Sequential(bytes[1], f, g)
            }
            Command::Pruning => {
                let (f, g) = self.parts(2);
                Head::Pruning(bytes[1], f, g)
            }
            Command::Pending => Head::Pending(Pending::read(bytes, 0).unwrap()),
        }
    }
}
