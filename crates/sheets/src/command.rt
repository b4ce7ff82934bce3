// The commands of a sheet, by the byte that each begins with.
ghost use Rattle.std.specs.Prelude.{◌≡◌, ◌++◌, Some, codes, decimal};
ghost use Rattle.formats.specs.Widths.{width_of};
ghost use Rattle.sheets.specs.Commands.{byte_of, Decodes};

use formats::widths::width;
use std::error::Error;
use std::fmt;

// What comes next in a sheet: a row, or a window of the row before it; as a number, its byte.
#[derive(Clone, Copy, PartialEq, Eq, Debug)]
pub enum Command {
    Row = 0x10,
    Window = 0x11,
}

// A byte that begins no command of a sheet.
// Kept: an error of its own, which `TryFrom` needs. Its text says what the byte is not; a shared one would have to be told.
#[derive(Clone, Copy, PartialEq, Eq, Debug)]
pub struct NoCommand(pub u8);

impl TryFrom<u8> for Command {
    type Error = NoCommand;

    ghost try_from_gives = { Decodes };

    fn try_from(byte: u8) -> Result<Self, NoCommand> {
        match byte {
            0x10 => Ok(Command::Row),
            0x11 => Ok(Command::Window),
            _ => Err(NoCommand(byte)),
        }
    }
}

impl Command {
    // How many bytes it has with its operands.
    pub(crate) fn width(self) -> usize
        ensures { result ≡ width_of (byte_of self) }
    {
        width(self as u8)
    }
}

impl fmt::Display for NoCommand {
    ghost output = { λ e. Some (codes "no command of a sheet begins with byte " ++ decimal e.0) };

    fn fmt<W: fmt::Write>(&self, f: &mut fmt::Formatter<W>) -> fmt::Result {
        let byte = self.0;
        write!(f, "no command of a sheet begins with byte {byte}")
    }
}

impl Error for NoCommand {}
