// The marks of parameters and their bytes.
ghost use Rattle.std.specs.Prelude.{◌++◌, Some, codes, decimal};
ghost use Rattle.forms.specs.Marks.{DecodesMark};

use std::error::Error;
use std::fmt;

// What the number of a parameter is, the value or a variable; as a number, the byte in front of it.
#[derive(Clone, Copy, PartialEq, Eq, Debug)]
pub enum Mark {
    Value,
    Variable,
}

// A byte that marks no parameter.
// Kept: an error of its own, which `TryFrom` needs. Its text says what the byte is not; a shared one would have to be told.
#[derive(Clone, Copy, PartialEq, Eq, Debug)]
pub struct NoMark(pub u8);

impl TryFrom<u8> for Mark {
    type Error = NoMark;

    ghost try_from_gives = { DecodesMark };

    fn try_from(byte: u8) -> Result<Self, NoMark> {
        match byte {
            0 => Ok(Mark::Value),
            1 => Ok(Mark::Variable),
            _ => Err(NoMark(byte)),
        }
    }
}

impl fmt::Display for NoMark {
    ghost output = { λ e. Some (codes "no parameter is marked " ++ decimal e.0) };

    fn fmt<W: fmt::Write>(&self, f: &mut fmt::Formatter<W>) -> fmt::Result {
        let mark = self.0;
        write!(f, "no parameter is marked {mark}")
    }
}

impl Error for NoMark {}
