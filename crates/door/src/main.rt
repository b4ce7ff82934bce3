// The program that a mechanic runs.
#![tactic(auto)]

use formats::fault::LONGEST;
use hosts::local::Local;
use journals::journal::run_report;
use reports::file::{file_report, file_report_with_sheet};
use reports::replies::replies_report;
use reports::sheet::sheet_report;
use std::alloc::AllocError;
use std::fs::File;
use std::io::Read;
use std::process::ExitCode;
use std::{env, fmt, fs, io};

const USAGE: &str = "usage: door check FILE [SHEET]         judge a parameter file, with a sheet
       door sheet SHEET                judge a site sheet
       door replies SHEET SITE VALUE   what a site can reply to a value
       door run FILE SHEET SCRIPT      play a script over a file, and show the record
       door help                       what door does
";

const HELP: &str = "door judges the files of a lift's door controller, and plays scripts over them.

  door check FILE [SHEET]
      Reads a parameter file and prints accepted, with its definitions and goal as
      trees, or refused NUMBER at PLACE: Name, with what was expected there and the
      bytes around the place. It is judged with the local sites (0 to 3) and the
      sheet's (from 4 on), or with the local sites alone.
  door sheet SHEET
      Reads a site sheet and prints accepted, with its rows and windows, or
      refused NUMBER at PLACE: Name, with what was expected there and the bytes
      around the place.
  door replies SHEET SITE VALUE
      Prints what a site of the controller can reply when it is called with a
      value. Sites 0 to 3 are let, if, signal and rtimer; from 4 on they are the
      sheet's, less 4.
  door run FILE SHEET SCRIPT
      Begins a run of a parameter file and makes the calls of a script, a line for
      each: go N makes the due call of a number, counted from 0, answer TICKET VALUE
      hands in a reply, and wait TICKS lets time pass. Lines that are empty or begin
      with # are passed over. SCRIPT - is standard input.
      Prints what each call met, then the clock, the form's size, how many calls are
      due, the form, the record, the totals by site, and a picture of the run. From
      a line on that says no call nothing is played.
  door help
      Prints this text.

The exit status is 0 if the file and the sheet are accepted and each line of a
script can be read, else 1. A call that is refused is no failure.
";

// How many bytes of an input are read at once.
const PIECE: usize = 512;

// What the words ask for. Files are named by their paths.
#[derive(Clone, Copy)]
enum Command<'a> {
    Help,
    Check {
        file: &'a str,
        sheet: Option<&'a str>,
    },
    Sheet(&'a str),
    Replies {
        sheet: &'a str,
        site: u8,
        value: u16,
    },
    Run {
        file: &'a str,
        sheet: &'a str,
        script: &'a str,
    },
}

impl<'a> Command<'a> {
    fn parse(words: &'a [String]) -> Result<Command<'a>, Stop<'a>> {
        let (command, operands) = words.split_first().ok_or(Stop::Usage)?;
        match (command.as_str(), operands) {
            ("help", []) => Ok(Command::Help),
            ("check", [file]) => Ok(Command::Check {
                file: file.as_str(),
                sheet: None,
            }),
            ("check", [file, sheet]) => Ok(Command::Check {
                file: file.as_str(),
                sheet: Some(sheet.as_str()),
            }),
            ("sheet", [sheet]) => Ok(Command::Sheet(sheet.as_str())),
            ("replies", [sheet, site, value]) => Ok(Command::Replies {
                sheet: sheet.as_str(),
                site: site.parse().map_err(|_| Stop::NoNumber)?,
                value: value.parse().map_err(|_| Stop::NoNumber)?,
            }),
            ("run", [file, sheet, script]) => Ok(Command::Run {
                file: file.as_str(),
                sheet: sheet.as_str(),
                script: script.as_str(),
            }),
            _ => Err(Stop::Usage),
        }
    }
}

// Why door ends with no report.
#[derive(Drop)]
enum Stop<'a> {
    // The words ask for nothing that it does.
    Usage,
    // A site or a value is no number of its range.
    NoNumber,
    // The file of a path can't be read.
    Unread(&'a str, io::Error),
    // There is no memory, or no way to print. The program ends with this error.
    Failed(anyhow::Error),
}

// What is told of it on standard error.
impl<'a> fmt::Display for Stop<'a> {
    fn fmt<W: fmt::Write>(&self, f: &mut fmt::Formatter<W>) -> fmt::Result {
        match self {
            Stop::Usage => write!(f, "{USAGE}"),
            Stop::NoNumber => write!(
                f,
                "door: a site is 0 to 255, and a value 0 to 65535\n{USAGE}"
            ),
            Stop::Unread(path, error) => writeln!(f, "door: {path}: {error}"),
            Stop::Failed(error) => writeln!(f, "door: {error}"),
        }
    }
}

impl<'a> From<AllocError> for Stop<'a> {
    fn from(error: AllocError) -> Stop<'a> {
        Stop::Failed(error.into())
    }
}

impl<'a> From<io::Error> for Stop<'a> {
    fn from(error: io::Error) -> Stop<'a> {
        Stop::Failed(error.into())
    }
}

// The exit status says whether what was judged is accepted, and whether each line of a script could be read.
fn main(rt: HostRuntime) -> anyhow::Result<ExitCode> {
    let words = env::args(&rt)?.skip(1).collect::<Vec<String>>(rt.alloc())?;
    match run(&rt, words.as_slice()) {
        Ok(code) => Ok(code),
        Err(Stop::Failed(error)) => Err(error),
        Err(stop) => {
            eprint!(rt; "{stop}")?;
            Ok(ExitCode::FAILURE)
        }
    }
}

// Does what the words ask.
fn run<'a>(rt: &HostRuntime, words: &'a [String]) -> Result<ExitCode, Stop<'a>> {
    let heap = rt.alloc();
    let report = match Command::parse(words)? {
        Command::Help => {
            print!(rt; "{HELP}")?;
            return Ok(ExitCode::SUCCESS);
        }
        Command::Check { file, sheet } => {
            let bytes = read(rt, file)?;
            match sheet {
                None => file_report(heap, &Local, bytes.as_slice())?,
                Some(sheet) => {
                    let rows = read(rt, sheet)?;
                    file_report_with_sheet(heap, bytes.as_slice(), rows.as_slice())?
                }
            }
        }
        Command::Sheet(sheet) => sheet_report(heap, read(rt, sheet)?.as_slice())?,
        Command::Replies { sheet, site, value } => {
            replies_report(heap, read(rt, sheet)?.as_slice(), site, value)?
        }
        Command::Run {
            file,
            sheet,
            script,
        } => {
            let bytes = read(rt, file)?;
            let rows = read(rt, sheet)?;
            let lines = read_lines(rt, script)?;
            run_report(heap, bytes.as_slice(), rows.as_slice(), lines.as_str())?
        }
    };
    print!(rt; "{report}")?;
    if report.accepted {
        Ok(ExitCode::SUCCESS)
    } else {
        Ok(ExitCode::FAILURE)
    }
}

// The bytes of a file, or somewhat more than the longest input if there are more.
fn read<'a>(rt: &HostRuntime, path: &'a str) -> Result<Vec<u8>, Stop<'a>> {
    read_bytes(rt, path).map_err(|error| Stop::Unread(path, error))
}

// Kept: a loop over pieces, and not `take` with `read_to_end`. It ends with the piece that makes an input too long, so that such an
// input is refused at once, and a pipe is not waited for that has more to come, or stays open with nothing to come.
fn read_bytes(rt: &HostRuntime, path: &str) -> io::Result<Vec<u8>> {
    let mut file = File::open(rt, path)?;
    let mut bytes = Vec::new(rt.alloc());
    for _ in 0..u64::MAX {
        let mut piece = [0u8; PIECE];
        let count = file.read(&mut piece)?;
        bytes.extend_from_slice(&piece[..count])?;
        if count == 0 || bytes.len() > LONGEST {
            break;
        }
    }
    Ok(bytes)
}

// The text of a script: of a file, or of standard input where its path is a dash.
fn read_lines<'a>(rt: &HostRuntime, path: &'a str) -> Result<String, Stop<'a>> {
    let text = match path {
        "-" => io::read_to_string(rt.alloc(), rt.reader()),
        _ => fs::read_to_string(rt, path),
    };
    text.map_err(|error| Stop::Unread(path, error))
}
