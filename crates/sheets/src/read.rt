// Reads a sheet, command by command, to its first fault.
ghost use Rattle.std.specs.Prelude.{◌≡◌, ◌+◌, ◌<◌, ◌≤◌, false, length, Some, None, Ok, Err, MatchResult};
ghost use Rattle.formats.specs.Operands.{byte_at, two_at, first_broken};
ghost use Rattle.sheets.specs.Format.{range_rules, row_at, row_rules, window_at, window_rules, says_something, newest_done, CommandOutcome, SheetOutcome};
ghost use Rattle.sheets.specs.Rows.{row_of, rows_of, window_of, newest_first};

use crate::command::Command;
use crate::row::{MOST_ROWS, NO_END, Row, Window, no_rows};
use fixed::list::FixedList;
use formats::fault::{Fault, LONGEST};
use formats::operands::read;
use formats::widths::width;

// The limit of a row's site.
const LAST_SITE: u8 = 27;

// Where a command stands in the bytes of a sheet.
#[derive(Clone, Copy)]
struct Place<'a> {
    bytes: &'a [u8],
    at: usize,
    ghost within: { at < length bytes.now },
    ghost short: { length bytes.now ≤ 4096 },
}

// The two ends of a range of numbers, in order. They stand at an offset, one behind the other.
// Kept: that the offset is small, so that no sum with it overflows. A `Place` has that of a command, and not of an operand.
fn read_range(bytes: &[u8], at: usize) -> Result<(u16, u16), Fault>
    requires { at ≤ 8192 }
    ensures { MatchResult result (λ r. (first_broken (range_rules bytes.now at (at + 2) (at + 4)) ≡ None) × (r.0 ≡ two_at bytes.now at) × (r.1 ≡ two_at bytes.now (at + 2))) (λ f. first_broken (range_rules bytes.now at (at + 2) (at + 4)) ≡ Some f) }
{
    let first = read::<u16>(bytes, at)?;
    let last = read::<u16>(bytes, at + 2)?;
    if last < first {
        return Err(Fault::SecondBelowFirst(at + 2));
    }
    Ok((first, last))
}

impl Place<'_> {
    // The row of a row's command, still without windows.
    fn row(&self) -> Result<Row, Fault>
        ensures { let bs = self.now.bytes.now in let at = self.now.at in MatchResult result (λ row. (first_broken (row_rules bs at) ≡ None) × (row_of row ≡ row_at bs at)) (λ f. first_broken (row_rules bs at) ≡ Some f) }
    {
        let Place { bytes, at } = *self;
        let site = read::<u8>(bytes, at + 1)?;
        if site > LAST_SITE {
            return Err(Fault::OperandBeyondRange(at + 1));
        }
        let (first, last) = read_range(bytes, at + 2)?;
        // Kept: a match on the byte. It is read here alone, and an enum with an error of its own would be made for this one match.
        let silent = match read::<u8>(bytes, at + 6)? {
            0 => false,
            1 => true,
            _ => return Err(Fault::OperandBeyondRange(at + 6)),
        };
        Ok(Row::new(site, first, last, silent))
    }

    // The window of a window's command.
    fn window(&self) -> Result<Window, Fault>
        ensures { let bs = self.now.bytes.now in let at = self.now.at in MatchResult result (λ w. (first_broken (window_rules bs at) ≡ None) × (window_of w ≡ window_at bs at)) (λ f. first_broken (window_rules bs at) ≡ Some f) }
    {
        let Place { bytes, at } = *self;
        let earliest = read::<u32>(bytes, at + 1)?;
        if earliest == NO_END {
            return Err(Fault::OperandBeyondRange(at + 1));
        }
        let latest = read::<u32>(bytes, at + 5)?;
        if latest < earliest {
            return Err(Fault::SecondBelowFirst(at + 5));
        }
        let (lowest, highest) = read_range(bytes, at + 9)?;
        Ok(Window {
            earliest,
            latest,
            lowest,
            highest,
        })
    }

    // Reads the command, after the rows read so far. Whether there is room for what it adds is judged before its operands.
    fn read(&self, rows: &mut FixedList<Row, MOST_ROWS>) -> Result<(), Fault>
        requires { newest_done (newest_first rows.old) ≡ false → 7 ≤ self.now.at }
        ensures { CommandOutcome self.now.bytes.now self.now.at (newest_first rows.old) (newest_first rows.new) result }
    {
        match Command::try_from(self.bytes[self.at]) {
            Ok(Command::Row) => self.read_row(rows),
            Ok(Command::Window) => self.read_window(rows),
            Err(_) => Err(Fault::UnknownCommand(self.at)),
        }
    }

    fn read_row(&self, rows: &mut FixedList<Row, MOST_ROWS>) -> Result<(), Fault>
        requires command { byte_at self.now.bytes.now self.now.at ≡ 16 }
        requires row_before { newest_done (newest_first rows.old) ≡ false → 7 ≤ self.now.at }
        ensures { CommandOutcome self.now.bytes.now self.now.at (newest_first rows.old) (newest_first rows.new) result }
    {
        if !newest_done(rows) {
            return Err(Fault::EmptyRow(self.at - Command::Row.width()));
        }
        if rows.is_full() {
            return Err(Fault::TooMany(self.at));
        }
        let row = self.row()?;
        rows.push(row).unwrap();
        Ok(())
    }

    fn read_window(&self, rows: &mut FixedList<Row, MOST_ROWS>) -> Result<(), Fault>
        requires { byte_at self.now.bytes.now self.now.at ≡ 17 }
        ensures { CommandOutcome self.now.bytes.now self.now.at (newest_first rows.old) (newest_first rows.new) result }
    {
        let mut row = rows.last().ok_or(Fault::WindowBeforeRow(self.at))?;
        if row.windows.is_full() {
            return Err(Fault::TooMany(self.at));
        }
        let window = self.window()?;
        row.windows.push(window).unwrap();
        rows.replace_last(row);
        Ok(())
    }
}

impl Row {
    // Whether it has a window or silence.
    fn says_something(&self) -> bool
        ensures { result ≡ says_something (row_of self.now) }
    {
        self.silent() || !self.windows().is_empty()
    }
}

// Whether the newest row has a window or silence, if there is one.
fn newest_done(rows: &FixedList<Row, MOST_ROWS>) -> bool
    ensures { result ≡ newest_done (newest_first rows.now) }
{
    rows.last().is_none_or(|row| row.says_something())
}

// The rows of a sheet, or its first fault.
pub(crate) fn read_rows(bytes: &[u8]) -> Result<FixedList<Row, MOST_ROWS>, Fault>
    ensures { MatchResult result (λ rows. SheetOutcome bytes.now (Ok (rows_of rows))) (λ f. SheetOutcome bytes.now (Err f)) }
{
    if bytes.len() > LONGEST {
        return Err(Fault::TooLong);
    }
    let mut rows = no_rows();
    let mut at = 0;
    // Kept: a loop with an offset. How far the next command stands is read from the bytes, and an iterator that makes these
    // steps would be longer.
    while at < bytes.len() {
        Place { bytes, at }.read(&mut rows)?;
        at += width(bytes[at]);
    }
    if !newest_done(&rows) {
        return Err(Fault::EmptyRow(at - Command::Row.width()));
    }
    Ok(rows)
}
