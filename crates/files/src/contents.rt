// The definitions and the goal of a parameter file, read from its bytes.
ghost use Rattle.std.specs.Prelude.{◌≡◌, length, drop, IfSome, IfOk, Ok, Err, MatchResult};
ghost use Rattle.std.specs.Option.{option_map};
ghost use Rattle.orc.specs.Expressions.{entry};
ghost use Rattle.orc.specs.Files.{File, file_bytes};
ghost use Rattle.formats.specs.Operands.{byte_at};
ghost use Rattle.forms.specs.Heads.{expression, IsForm};
ghost use Rattle.files.specs.Judgement.{FileOutcome};
ghost use Rattle.files.specs.Contents.{body_bytes, behind_definition, behind_definitions, file_of};
ghost use Rattle.files.specs.Parts.{definition_of};

use crate::check::check_file;
use formats::fault::Fault;
use forms::form::Form;
use hosts::host::Host;

// A file's bytes. Bytes that are missing are read as 0.
#[derive(Clone, Copy)]
pub struct Contents<'a> {
    pub(crate) bytes: &'a [u8],
}

// A definition: its formal variable and its form.
#[derive(Clone, Copy)]
pub struct Definition<'a> {
    pub formal: u8,
    pub body: Form<'a>,
}

// The byte at an offset, or 0 where there is none.
fn byte_or_zero(bytes: &[u8], at: usize) -> u8
    ensures { result ≡ byte_at bytes.now at }
{
    bytes.get(at).copied().unwrap_or(0)
}

// What stands from an offset on.
fn bytes_from<'a>(bytes: &'a [u8], at: usize) -> &'a [u8]
    ensures { result.now ≡ drop at bytes.now }
{
    bytes.get(at..).unwrap_or(&[])
}

// The form of the definition at the front of some bytes, and what stands behind it.
fn split_definition<'a>(bytes: &'a [u8]) -> (&'a [u8], &'a [u8])
    ensures body { result.0.now ≡ body_bytes bytes.now }
    ensures behind { result.1.now ≡ behind_definition bytes.now }
{
    // Kept: two bytes, each of which is 0 where it is missing, as `Operand` does not read them.
    let size = u16::from_be_bytes([byte_or_zero(bytes, 1), byte_or_zero(bytes, 2)]);
    let rest = bytes_from(bytes, 3);
    rest.split_at(rest.len().min(usize::from(size)))
}

// What stands behind so many definitions of a file.
fn behind_definitions<'a>(file: &'a [u8], count: usize) -> &'a [u8]
    ensures { result.now ≡ behind_definitions count (drop 1 file.now) }
{
    (0..count).fold(bytes_from(file, 1), |rest, _| split_definition(rest).1)
}

impl<'a> Contents<'a> {
    // Any bytes, to be read as a file.
    pub fn new(bytes: &'a [u8]) -> Contents<'a>
        ensures { result.bytes.now ≡ bytes.now }
    {
        Contents { bytes }
    }

    // How many definitions there are.
    pub fn definition_count(self) -> usize
        ensures { result ≡ length (file_of self.entry.bytes.now).definitions }
    {
        usize::from(byte_or_zero(self.bytes, 0))
    }

    // The definition of a number, from 0, if there is one.
    pub fn definition(self, number: usize) -> Option<Definition<'a>>
        ensures found { option_map definition_of result ≡ entry (file_of self.entry.bytes.now).definitions number }
        ensures whole { (file : File) → self.entry.bytes.now ≡ file_bytes file → IfSome result (λ d. IsForm d.body.bytes.now) }
    {
        if number >= self.definition_count() {
            return None;
        }
        let definition = behind_definitions(self.bytes, number);
        let (body, _) = split_definition(definition);
        Some(Definition {
            formal: byte_or_zero(definition, 0),
            body: Form::new(body),
        })
    }

    // The goal's form.
    pub fn goal(self) -> Form<'a>
        ensures goal { expression result ≡ (file_of self.entry.bytes.now).goal }
        ensures whole { (file : File) → self.entry.bytes.now ≡ file_bytes file → IsForm result.bytes.now }
    {
        Form::new(behind_definitions(self.bytes, self.definition_count()))
    }
}

// Judges a file with a host, and gives its definitions and goal if it is accepted.
pub fn read_file<'a, H: Host>(host: &H, file: &'a [u8]) -> Result<Contents<'a>, Fault>
    ensures outcome { MatchResult result
        (λ _. FileOutcome (H.Host.meaning host.now) file.now (Ok (file_of file.now)))
        (λ f. FileOutcome (H.Host.meaning host.now) file.now (Err f)) }
    ensures contents { IfOk result (λ c. c.bytes.now ≡ file.now) }
{
    check_file(host, file)?;
    Ok(Contents::new(file))
}
