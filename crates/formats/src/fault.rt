// The faults of an input. Each has a number, which mechanics know it by, and a place, a byte offset.
ghost use Rattle.std.specs.Prelude.{Some};
ghost use Rattle.verdicts.specs.Verdicts.{verdict};
ghost use Rattle.formats.specs.Faults.{told};

use std::error::Error;
use std::fmt;
use verdicts::reason::{Notice, Reason};
use verdicts::verdict::Verdict;

// How many bytes an input may have.
pub const LONGEST: usize = 4096;

#[derive(Clone, Copy, PartialEq, Eq, Debug)]
pub enum Fault {
    CutShort(usize),
    UnknownCommand(usize),
    OperandBeyondRange(usize),
    NoSuchDefinition(usize),
    SiteUnknown(usize),
    FreeVariable(usize),
    TooLong,
    TrailingBytes(usize),
    WindowBeforeRow(usize),
    EmptyRow(usize),
    SecondBelowFirst(usize),
    TooMany(usize),
}

impl Reason for Fault {
    ghost told = { told };

    // The place is the offset of the byte that it is about.
    fn notice(&self) -> Notice {
        let (number, place, name) = match *self {
            Fault::CutShort(at) => (1, at, "Cut short"),
            Fault::UnknownCommand(at) => (2, at, "Unknown command"),
            Fault::OperandBeyondRange(at) => (3, at, "Operand beyond its range"),
            Fault::NoSuchDefinition(at) => (4, at, "Definition number at or above the count"),
            Fault::SiteUnknown(at) => (5, at, "Site unknown to the host"),
            Fault::FreeVariable(at) => (6, at, "Free variable"),
            Fault::TooLong => (7, LONGEST, "Over 4,096 bytes"),
            Fault::TrailingBytes(at) => (8, at, "Bytes after a complete form"),
            Fault::WindowBeforeRow(at) => (9, at, "Window before any row"),
            Fault::EmptyRow(at) => (10, at, "Row without silence or window"),
            Fault::SecondBelowFirst(at) => (11, at, "Second of a pair below the first"),
            Fault::TooMany(at) => (12, at, "Row 65 or window 5 of a row"),
        };
        Notice {
            number,
            place,
            name,
        }
    }
}

impl fmt::Display for Fault {
    ghost output = { λ f. Some (verdict (told f)) };

    fn fmt<W: fmt::Write>(&self, f: &mut fmt::Formatter<W>) -> fmt::Result {
        Verdict(self).fmt(f)
    }
}

impl Error for Fault {}
