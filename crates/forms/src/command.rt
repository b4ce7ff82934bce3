// The commands of a form and their bytes.
ghost use Rattle.std.specs.Prelude.{◌≡◌, ◌++◌, Some, codes, decimal};
ghost use Rattle.formats.specs.Widths.{width_of};
ghost use Rattle.forms.specs.Shapes.{has_parts, has_parameter};
ghost use Rattle.forms.specs.Commands.{byte_of, Decodes};

use formats::widths::width;
use std::error::Error;
use std::fmt;

// What a form begins with; as a number, its byte.
#[derive(Clone, Copy, PartialEq, Eq, Debug)]
pub enum Command {
    Stop,
    SiteCall,
    DefinitionCall,
    Parallel,
    Sequential,
    Pruning,
    Pending,
}

// A byte that no command of a form has.
// Kept: an error of its own, which `TryFrom` needs. Its text says what the byte is not; a shared one would have to be told.
#[derive(Clone, Copy, PartialEq, Eq, Debug)]
pub struct NoCommand(pub u8);

impl TryFrom<u8> for Command {
    type Error = NoCommand;

    ghost try_from_gives = { Decodes };

    fn try_from(byte: u8) -> Result<Self, NoCommand> {
        match byte {
            0 => Ok(Command::Stop),
            1 => Ok(Command::SiteCall),
            2 => Ok(Command::DefinitionCall),
            3 => Ok(Command::Parallel),
            4 => Ok(Command::Sequential),
            5 => Ok(Command::Pruning),
            6 => Ok(Command::Pending),
            _ => Err(NoCommand(byte)),
        }
    }
}

impl fmt::Display for NoCommand {
    ghost output = { λ e. Some (codes "no command of a form has byte " ++ decimal e.0) };

    fn fmt<W: fmt::Write>(&self, f: &mut fmt::Formatter<W>) -> fmt::Result {
        let byte = self.0;
        write!(f, "no command of a form has byte {byte}")
    }
}

impl Error for NoCommand {}

impl Command {
    // How many bytes it has with its operands.
    pub fn width(self) -> usize
        ensures { result ≡ width_of (byte_of self) }
    {
        width(self as u8)
    }

    // Whether it has two parts.
    pub(crate) fn is_split(self) -> bool
        ensures { result ≡ has_parts (byte_of self) }
    {
        matches!(
            self,
            Command::Parallel | Command::Sequential | Command::Pruning
        )
    }

    // Whether it has a parameter.
    pub(crate) fn has_parameter(self) -> bool
        ensures { result ≡ has_parameter (byte_of self) }
    {
        matches!(self, Command::SiteCall | Command::DefinitionCall)
    }
}
