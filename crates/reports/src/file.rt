// The report of a parameter file: a verdict, and then its definitions and goal as a tree, or what was expected and where.
ghost use Rattle.std.specs.Prelude.{◌≡◌, ◌<◌, false, length, IfOk, IfSome, Err, string_bytes, MatchResult};
ghost use Rattle.sheets.specs.Format.{Outcome as SheetResult, SheetOutcome};
ghost use Rattle.reports.specs.Files.{JudgedFile};
ghost use Rattle.reports.specs.Replies.{controller};
ghost use Rattle.reports.specs.Verdicts.{first_line, Begins};

use crate::controller::controller;
use crate::report::Report;
use crate::sheet::refusal_report;
use files::contents::{Contents, Definition, read_file};
use formats::fault::Fault;
use forms::form::{Form, Head, Parameter};
use forms::pending::Pending;
use hosts::host::Host;
use hosts::local::LocalSite;
use std::alloc::{AllocError, Global};
use std::fmt;

// The depth from which on the lines of a tree are indented no further.
const DEEPEST: usize = 40;

// The report of a file, judged with a host. Its first line is the verdict on the bytes.
pub fn file_report<H: Host>(heap: Global, host: &H, bytes: &[u8]) -> Result<Report, AllocError>
    ensures { IfOk result (λ t. JudgedFile (H.Host.meaning host.now) bytes.now t) }
{
    match read_file(host, bytes) {
        Ok(contents) => {
            let trees = trees(heap, contents)?;
            Report::acceptance(heap, trees.as_str())
        }
        Err(fault) => file_refusal_report(heap, bytes, fault),
    }
}

// The report of a file that is refused with a fault.
pub fn file_refusal_report(heap: Global, bytes: &[u8], fault: Fault) -> Result<Report, AllocError>
    ensures { IfOk result (λ t. Begins (first_line {X = Unit {0}} (Err fault)) (string_bytes t.text) × (t.accepted ≡ false)) }
{
    Report::refusal(heap, bytes, fault, expected(fault))
}

// The report of a file, judged with the local sites and a sheet. A sheet that is refused is reported as such.
pub fn file_report_with_sheet(
    heap: Global,
    bytes: &[u8],
    sheet: &[u8],
) -> Result<Report, AllocError>
    ensures { IfOk result (λ t. (s : SheetResult) × SheetOutcome sheet.now s × MatchResult s (λ _. JudgedFile (controller s) bytes.now t) (λ _. Begins (first_line s) (string_bytes t.text) × (t.accepted ≡ false))) }
{
    match controller(sheet) {
        Ok(host) => file_report(heap, &host, bytes),
        Err(fault) => sheet_refusal_report(heap, sheet, fault),
    }
}

// The report of a sheet that is refused with a fault, where a file was to be judged with it.
pub fn sheet_refusal_report(heap: Global, sheet: &[u8], fault: Fault) -> Result<Report, AllocError>
    ensures { IfOk result (λ t. Begins (first_line {X = Unit {0}} (Err fault)) (string_bytes t.text) × (t.accepted ≡ false)) }
{
    let mut report = refusal_report(heap, sheet, fault)?;
    writeln!(
        report.text,
        "the fault is in the sheet, and not in the parameter file"
    )?;
    Ok(report)
}

// The definitions and the goal.
fn trees(heap: Global, contents: Contents<'_>) -> Result<String, AllocError> {
    let mut text = String::new(heap);
    for number in 0..contents.definition_count() {
        let Definition { formal, body } = contents.definition(number).unwrap();
        writeln!(text, "\ndefinition {number} of variable {formal}")?;
        add_tree(&mut text, body, 1)?;
    }
    writeln!(text, "\ngoal")?;
    add_tree(&mut text, contents.goal(), 1)?;
    Ok(text)
}

// A form, a line for each command, its parts further in.
// Kept: a loop over the second parts, where a second call would read as well. A form that is nested to the right takes no stack for its
// depth.
fn add_tree(text: &mut String, form: Form<'_>, depth: usize) -> Result<(), AllocError> {
    let mut depth = depth;
    let mut rest = form;
    while let Some((first, second)) = add_line(text, rest, depth)? {
        depth = depth.saturating_add(1);
        add_tree(text, first, depth)?;
        rest = second;
    }
    Ok(())
}

// The line of a form's command. Told are the form's parts, if it has any, which are shorter.
fn add_line<'a>(
    text: &mut String,
    form: Form<'a>,
    depth: usize,
) -> Result<Option<(Form<'a>, Form<'a>)>, AllocError>
    ensures { IfOk result (λ parts. IfSome parts (λ p. (length p.0.bytes.now < length form.entry.bytes.now) × (length p.1.bytes.now < length form.entry.bytes.now))) }
{
    let head = form.head();
    let indent = 2 * depth.min(DEEPEST);
    writeln!(text, "{:indent$}{}", "", Line(head))?;
    Ok(head.parts())
}

// The command of a form with its operands, in words.
#[derive(Clone, Copy)]
struct Line<'a>(Head<'a>);

impl<'a> fmt::Display for Line<'a> {
    fn fmt<W: fmt::Write>(&self, f: &mut fmt::Formatter<W>) -> fmt::Result {
        match self.0 {
            Head::Stop => write!(f, "stop"),
            Head::SiteCall { site, parameter } => {
                let with = With(parameter);
                match LocalSite::try_from(site) {
                    Ok(name) => write!(f, "site call {site}, {name}, {with}"),
                    Err(_) => write!(f, "site call {site} {with}"),
                }
            }
            Head::DefinitionCall { number, parameter } => {
                let with = With(parameter);
                write!(f, "definition call {number} {with}")
            }
            Head::Parallel(_, _) => write!(f, "parallel"),
            Head::Sequential(x, _, _) => write!(f, "sequential with variable {x}"),
            Head::Pruning(x, _, _) => write!(f, "pruning with variable {x}"),
            Head::Pending(
                Pending {
                    ticket,
                    site,
                    value,
                    clock,
                },
            ) => write!(
                f,
                "pending call of site {site} with value {value}, ticket {ticket}, since tick {clock}"
            ),
        }
    }
}

// What a call is made with, in words.
#[derive(Clone, Copy)]
struct With(Parameter);

impl fmt::Display for With {
    fn fmt<W: fmt::Write>(&self, f: &mut fmt::Formatter<W>) -> fmt::Result {
        match self.0 {
            Parameter::Value(value) => write!(f, "with value {value}"),
            Parameter::Variable(variable) => write!(f, "with variable {variable}"),
        }
    }
}

// What was expected at the place of a fault.
fn expected(fault: Fault) -> &'static str {
    match fault {
        Fault::CutShort(_) => "more bytes: the file, or a definition, ends inside a form",
        Fault::UnknownCommand(_) => "a command from 00 to 05",
        Fault::OperandBeyondRange(0) => "a count of definitions from 0 to 16",
        Fault::OperandBeyondRange(_) => "a site or variable from 0 to 31, or a mark of 0 or 1",
        Fault::NoSuchDefinition(_) => "the number of a definition of this file",
        Fault::SiteUnknown(_) => "a site that the controller knows",
        Fault::FreeVariable(_) => "a variable that is bound here",
        Fault::TooLong => "at most 4096 bytes",
        Fault::TrailingBytes(_) => "no byte more: the form is complete",
        _ => "another byte",
    }
}
