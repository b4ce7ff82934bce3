// What is wrong with a line of a script.
ghost use Rattle.std.specs.Prelude.{Some};
ghost use Rattle.scripts.specs.Faults.{message};

use std::error::Error;
use std::fmt;

// Why a line says no call.
#[derive(Clone, Copy, PartialEq, Eq, Debug)]
pub enum LineFault {
    // Its first word is that of no call.
    UnknownWord,
    // It ends where a number should stand.
    NumberMissing,
    // A word that should be a number has another character than a digit.
    NotANumber,
    // A number is above the largest that can stand in its place, which is this one.
    TooLarge(u32),
    // Words stand behind its last number.
    WordsLeft,
}

// A message for the mechanic.
impl fmt::Display for LineFault {
    ghost output = { λ f. Some (message f) };

    fn fmt<W: fmt::Write>(&self, f: &mut fmt::Formatter<W>) -> fmt::Result {
        match self {
            LineFault::UnknownWord => f.write_str(
                "unknown word: expected go, answer, wait or a comment after #",
            ),
            LineFault::NumberMissing => f.write_str("a number is missing"),
            LineFault::NotANumber => f.write_str("not a number: expected decimal digits"),
            LineFault::TooLarge(most) => write!(f, "the number is above {most}"),
            LineFault::WordsLeft => f.write_str("words are left over"),
        }
    }
}

impl Error for LineFault {}
