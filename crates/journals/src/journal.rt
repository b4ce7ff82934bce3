// The report of a script that is played.
ghost use Rattle.std.specs.Prelude.{◌≡◌, false, is_none, IfOk, IfSome, Some, string_bytes, MatchResult, map, zip, ◌++◌, codes};
ghost use Rattle.sheets.specs.Format.{Outcome as SheetResult, SheetOutcome};
ghost use Rattle.reports.specs.Replies.{controller};
ghost use Rattle.reports.specs.Verdicts.{first_line, Begins};
ghost use Rattle.engine.specs.Stands.{state_of};
ghost use Rattle.journals.specs.Lines.{call_lines, bad_text, journal_text};
ghost use Rattle.journals.specs.Journals.{Journal, pair_of};

use crate::lanes::drawn;
use crate::line::CallLine;
use crate::standing::Standing;
use hosts::host::Host;
use plays::play::play;
use plays::played::Played;
use reports::controller::controller;
use reports::file::{file_refusal_report, sheet_refusal_report};
use reports::report::Report;
use runs::call::Call;
use runs::refusal::Refusal;
use scripts::script::{BadLine, Script, read_script};
use std::alloc::{AllocError, Global};
use std::fmt;

// The report of a script that is played over a file and a sheet, up to the script's first line at fault, if one is. It has a line
// for each call and what it met, then what the run holds, and then a picture of it. A sheet or a file that is refused is reported as
// such, and nothing is played.
pub fn run_report(
    heap: Global,
    file: &[u8],
    sheet: &[u8],
    script: &str,
) -> Result<Report, AllocError>
    ensures { IfOk result (λ t. (s : SheetResult) × SheetOutcome sheet.now s × MatchResult s (λ _. Journal (controller s) file.now script.now t) (λ _. Begins (first_line s) (string_bytes t.text) × (t.accepted ≡ false))) }
{
    match controller(sheet) {
        Ok(host) => journal(heap, host, file, script),
        Err(fault) => sheet_refusal_report(heap, sheet, fault),
    }
}

// The report of a script that is played over a file with a host.
fn journal<H: Host + Copy>(
    heap: Global,
    host: H,
    file: &[u8],
    script: &str,
) -> Result<Report, AllocError>
    ensures { IfOk result (λ t. Journal (H.Host.meaning host) file.now script.now t) }
{
    let script = read_script(heap, script)?;
    let played = play(heap, host, file, script.calls.as_slice())?;
    match played.judged {
        Ok(()) => {
            let clock = played.run.clock();
            let picture = drawn(heap, host, file, script.calls.as_slice(), clock)?;
            told(heap, &script, &played, picture.as_str())
        }
        Err(fault) => file_refusal_report(heap, file, fault),
    }
}

// The report of what was played, with its picture.
fn told<H>(
    heap: Global,
    script: &Script,
    played: &Played<H>,
    picture: &str,
) -> Result<Report, AllocError>
    ensures { IfOk result (λ t. (string_bytes t.text ≡ journal_text script.now.calls.items script.now.bad played.now.responses.items (state_of played.now.run.plain) ++ (codes "\n" ++ picture.now)) × (t.accepted ≡ is_none script.now.bad)) }
{
    let lines = lines(heap, script.calls.as_slice(), played.responses.as_slice())?;
    let calls = CallLines(lines.as_slice());
    let stop = BadText(script.bad);
    let standing = Standing(&played.run);
    Ok(Report {
        text: format!(in heap; "{calls}{stop}{standing}\n{picture}")?,
        accepted: script.bad.is_none(),
    })
}

// The lines of some calls, each with its response.
fn lines(
    heap: Global,
    calls: &[Call],
    responses: &[Result<(), Refusal>],
) -> Result<Vec<CallLine>, AllocError>
    ensures { IfOk result (λ ls. map pair_of ls.items ≡ zip calls.now responses.now) }
{
    calls
        .iter()
        .zip(responses)
        .map(|(call, response)| CallLine {
            call: *call,
            response: *response,
        })
        .collect(heap)
}

// A line for each call.
#[derive(Clone, Copy)]
struct CallLines<'a>(&'a [CallLine]);

impl<'a> fmt::Display for CallLines<'a> {
    ghost output = { λ l. Some (call_lines (map pair_of l.0.now)) };

    fn fmt<W: fmt::Write>(&self, f: &mut fmt::Formatter<W>) -> fmt::Result {
        for line in self.0 {
            write!(f, "{line}")?;
        }
        Ok(())
    }
}

// The line of a script that is at fault, if one is.
#[derive(Clone, Copy)]
struct BadText(Option<BadLine>);

impl fmt::Display for BadText {
    ghost output = { λ b. Some (bad_text b.0) };

    fn fmt<W: fmt::Write>(&self, f: &mut fmt::Formatter<W>) -> fmt::Result {
        match self.0 {
            None => Ok(()),
            Some(BadLine { line, fault }) => {
                writeln!(f, "line {line}: {fault}; nothing is played from there on")
            }
        }
    }
}
