// The report of a sheet: a verdict, and then its rows and windows in a table, or what was expected and where.
ghost use Rattle.std.specs.Prelude.{◌≡◌, ◌<◌, false, is_ok, length, IfOk, IfSome, Err, string_bytes};
ghost use Rattle.sheets.specs.Format.{Outcome, SheetOutcome};
ghost use Rattle.reports.specs.Verdicts.{first_line, Begins};

use crate::ranges::{Range, WindowRanges};
use crate::report::Report;
use formats::fault::Fault;
use formats::widths::width;
use sheets::command::Command;
use sheets::row::{Row, Window};
use sheets::rows::read_sheet;
use std::alloc::{AllocError, Global};
use verdicts::reason::Reason;

// The report of a sheet. Its first line is the verdict on the bytes.
pub fn sheet_report(heap: Global, bytes: &[u8]) -> Result<Report, AllocError>
    ensures { IfOk result (λ t. (o : Outcome) × SheetOutcome bytes.now o × Begins (first_line o) (string_bytes t.text) × (t.accepted ≡ is_ok o)) }
{
    match read_sheet(bytes) {
        Ok(rows) => {
            let table = table(heap, rows.as_slice())?;
            Report::acceptance(heap, table.as_str())
        }
        Err(fault) => refusal_report(heap, bytes, fault),
    }
}

// The report of a sheet that is refused with a fault.
pub(crate) fn refusal_report(heap: Global, bytes: &[u8], fault: Fault) -> Result<Report, AllocError>
    ensures { IfOk result (λ t. Begins (first_line {X = Unit {0}} (Err fault)) (string_bytes t.text) × (t.accepted ≡ false)) }
{
    Report::refusal(heap, bytes, fault, expected(bytes, fault))
}

fn table(heap: Global, rows: &[Row]) -> Result<String, AllocError> {
    if rows.is_empty() {
        return String::from_str(heap, "no rows: the sheet knows no site\n");
    }
    let mut text = String::from_str(
        heap,
        "\nsite  arguments        silence  window  ticks                     milliseconds                values\n",
    )?;
    for row in rows {
        add_row(&mut text, row)?;
    }
    Ok(text)
}

// The lines of one row: the first also has its site, arguments and silence.
fn add_row(text: &mut String, row: &Row) -> Result<(), AllocError> {
    let site = row.site();
    let arguments = Range::from(row.arguments()).to_string(*text.allocator())?;
    let silence = if row.silent() { "yes" } else { "no" };
    write!(text, "{site:>4}  {arguments:<15}  {silence:<7}  ")?;
    if row.windows().is_empty() {
        writeln!(text, "  none")?;
    }
    for (i, window) in row.windows().iter().enumerate() {
        if i > 0 {
            write!(text, "{:32}", "")?;
        }
        add_window(text, i + 1, *window)?;
    }
    Ok(())
}

fn add_window(text: &mut String, number: usize, window: Window) -> Result<(), AllocError> {
    let WindowRanges {
        ticks,
        millis,
        values,
    } = WindowRanges::from(window);
    let heap = *text.allocator();
    let ticks = ticks.to_string(heap)?;
    let millis = millis.to_string(heap)?;
    writeln!(text, "{number:>6}  {ticks:<24}  {millis:<26}  {values}")
}

// Where a row has its site and a window its latest tick, from the command's byte on.
const SITE: usize = 1;

const LATEST: usize = 5;

// What was expected at the place of a fault.
fn expected(bytes: &[u8], fault: Fault) -> &'static str {
    let place = fault.place();
    let start = command_at(bytes, place);
    let operand = place.saturating_sub(start);
    let command = bytes
        .get(start)
        .and_then(|byte| Command::try_from(*byte).ok());
    match fault {
        Fault::CutShort(_) => "the rest of a command: a row has 7 bytes, a window 13",
        Fault::UnknownCommand(_) => "command 10, a row, or command 11, a window",
        Fault::OperandBeyondRange(_) => match command {
            Some(Command::Window) => "an earliest tick of at most 4294967294",
            _ if operand == SITE => "a site of 0 to 27",
            _ => "silence 0 or 1",
        },
        Fault::WindowBeforeRow(_) => "a row first: a window belongs to the row before it",
        Fault::EmptyRow(_) => "silence 1 in this row, or a window after it",
        Fault::SecondBelowFirst(_) => match command {
            Some(Command::Window) if operand == LATEST => "a latest tick not below the earliest",
            Some(Command::Window) => "a highest value not below the lowest",
            _ => "a last argument not below the first",
        },
        Fault::TooMany(_) => match command {
            Some(Command::Window) => "at most 4 windows in a row",
            _ => "at most 64 rows",
        },
        Fault::TooLong => "at most 4096 bytes",
        _ => "another byte",
    }
}

// The offset of the command in which a place lies.
// Kept: a loop. Of the items of `successors` no bound is known, and `last` asks for one.
fn command_at(bytes: &[u8], place: usize) -> usize {
    let mut at = 0;
    while let Some(next) = next_command(bytes, at).filter(|next| *next <= place) {
        at = next;
    }
    at
}

// The offset behind the command at an offset, if there is one.
// Kept: beside `behind_command` of `places`, by which the whole command is there. Here the last one may be cut short.
fn next_command(bytes: &[u8], at: usize) -> Option<usize>
    ensures { IfSome result (λ next. (at < length bytes.now) × (at < next)) }
{
    let width = width(*bytes.get(at)?);
    (width > 0).then(|| at.saturating_add(width))
}
