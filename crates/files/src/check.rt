// The check of a parameter file: its bytes in order, to the first fault.
ghost use Rattle.std.specs.Prelude.{◌≡◌, ◌+◌, ◌<◌, ◌≤◌, ◌∷◌, [], length, IfOk, Ok, Err, MatchResult, OnOk, ◌≢◌};
ghost use Rattle.orc.specs.Files.{File, file_bytes, WellFormed};
ghost use Rattle.formats.specs.Operands.{byte_at, reaches_to};
ghost use Rattle.formats.specs.Widths.{width_of};
ghost use Rattle.files.specs.Judgement.{in_range, parameter_rules, site_call_rules, definition_call_rules, binder_rules, definition_end, definition_rules, RestOutcome, count_rules, FileOutcome};
ghost use Rattle.files.specs.Contents.{file_of};
ghost use Rattle.files.specs.Progress.{ByRules, CommandJudged, FormJudged, WholeJudged, DefinitionJudged, EndsIn};
ghost use Rattle.files.specs.Scopes.{bits};

use crate::scope::Scope;
use crate::small::Small;
use formats::fault::{Fault, LONGEST};
use formats::operands::read;
use formats::widths::width;
use forms::command::Command;
use forms::mark::Mark;
use hosts::host::Host;

// How many definitions it may have.
const MOST_DEFINITIONS: u8 = 16;

// What forms are judged with: the host, how many definitions the file has, and the bytes up to their end.
#[derive(Drop)]
struct Judge<'a, H> {
    host: &'a H,
    count: u8,
    bytes: &'a [u8],
    ghost short: { length bytes.now ≤ 4096 },
}

// The variable or the site at an offset.
fn read_small(bytes: &[u8], at: usize) -> Result<Small, Fault>
    ensures rules { ByRules (reaches_to bytes.now (at + 1) ∷ in_range (byte_at bytes.now at) at ∷ []) result }
    ensures number { IfOk result (λ x. x.number ≡ byte_at bytes.now at) }
{
    let number = read::<u8>(bytes, at)?;
    Small::new(u16::from(number)).ok_or(Fault::OperandBeyondRange(at))
}

// The variable that the command at an offset binds.
// Kept: that offsets are small, here and below, so that no sum with one overflows. A place, as the sheet's reader has one, would
// be made anew for each parameter and each body, and would carry the judge and what is bound.
fn read_binder(bytes: &[u8], at: usize) -> Result<Small, Fault>
    requires { at ≤ 4096 }
    ensures rules { ByRules (binder_rules bytes.now at) result }
    ensures number { IfOk result (λ x. x.number ≡ byte_at bytes.now (at + 1)) }
{
    read_small(bytes, at + 1)
}

// The formal variable of the definition at an offset, and the definition's end.
fn read_definition_head(file: &[u8], at: usize) -> Result<(Small, usize), Fault>
    requires { at ≤ 4096 }
    ensures rules { ByRules (definition_rules file.now at) result }
    ensures head { IfOk result
        (λ h. (h.0.number ≡ byte_at file.now at) × (h.1 ≡ definition_end file.now at) × (h.1 ≤ length file.now) × (at + 3 ≤ h.1)) }
{
    let formal = read_small(file, at)?;
    let length = read::<u16>(file, at + 1)?;
    let end = at + 3 + usize::from(length);
    if end > file.len() {
        return Err(Fault::CutShort(file.len()));
    }
    Ok((formal, end))
}

// The count of definitions, a file's first byte.
fn read_count(file: &[u8]) -> Result<u8, Fault>
    ensures rules { ByRules (count_rules file.now) result }
    ensures count { IfOk result (λ n. (n ≡ byte_at file.now 0) × (1 ≤ length file.now)) }
{
    let count = read::<u8>(file, 0)?;
    if count > MOST_DEFINITIONS {
        return Err(Fault::OperandBeyondRange(0));
    }
    Ok(count)
}

impl<'a, H: Host> Judge<'a, H> {
    // The parameter at an offset: a value, or a variable that is bound.
    fn parameter(&self, scope: Scope, at: usize) -> Result<(), Fault>
        requires { at ≤ 8192 }
        ensures { ByRules (parameter_rules self.now.bytes.now (bits scope.bound) at) result }
    {
        let mark = read::<u8>(self.bytes, at)?;
        let mark = Mark::try_from(mark).map_err(|_| Fault::OperandBeyondRange(at))?;
        let number = read::<u16>(self.bytes, at + 1)?;
        if mark == Mark::Value {
            return Ok(());
        }
        let variable = Small::new(number).ok_or(Fault::OperandBeyondRange(at + 1))?;
        if !scope.holds(variable) {
            return Err(Fault::FreeVariable(at + 1));
        }
        Ok(())
    }

    // The operands of the site call at an offset.
    fn site_call(&self, scope: Scope, at: usize) -> Result<(), Fault>
        requires { at ≤ 4096 }
        ensures { ByRules (site_call_rules (H.Host.meaning self.now.host.now) self.now.bytes.now (bits scope.bound) at) result }
    {
        let site = read_small(self.bytes, at + 1)?;
        if !self.host.knows(site.number) {
            return Err(Fault::SiteUnknown(at + 1));
        }
        self.parameter(scope, at + 2)
    }

    // The operands of the definition call at an offset.
    fn definition_call(&self, scope: Scope, at: usize) -> Result<(), Fault>
        requires { at ≤ 4096 }
        ensures { ByRules (definition_call_rules self.now.count self.now.bytes.now (bits scope.bound) at) result }
    {
        let number = read::<u8>(self.bytes, at + 1)?;
        if number >= self.count {
            return Err(Fault::NoSuchDefinition(at + 1));
        }
        self.parameter(scope, at + 2)
    }

    // The command at an offset with its operands. For one with two parts, the variables that are bound in each.
    fn command(&self, scope: Scope, at: usize) -> Result<Option<(Scope, Scope)>, Fault>
        ensures wide { OnOk result
            ((at < length self.now.bytes.now) × (0 < width_of (byte_at self.now.bytes.now at))) }
        ensures judged { CommandJudged (H.Host.meaning self.now.host.now) self.now.count self.now.bytes.now (bits scope.bound) at result }
    {
        let byte = read::<u8>(self.bytes, at)?;
        let command = Command::try_from(byte).map_err(|_| Fault::UnknownCommand(at))?;
        match command {
            Command::Stop => Ok(None),
            Command::SiteCall => {
                self.site_call(scope, at)?;
                Ok(None)
            }
            Command::DefinitionCall => {
                self.definition_call(scope, at)?;
                Ok(None)
            }
            Command::Parallel => Ok(Some((scope, scope))),
            Command::Sequential => {
                let variable = read_binder(self.bytes, at)?;
                Ok(Some((scope, scope.with(variable))))
            }
            Command::Pruning => {
                let variable = read_binder(self.bytes, at)?;
                Ok(Some((scope.with(variable), scope)))
            }
            Command::Pending => Err(Fault::UnknownCommand(at)),
        }
    }

    // The form at an offset, and the offset behind it.
    fn form(&self, scope: Scope, at: usize) -> Result<usize, Fault>
        ensures behind { IfOk result (λ end. at < end) }
        ensures outcome { FormJudged (H.Host.meaning self.now.host.now) self.now.count self.now.bytes.now (bits scope.bound) at result }
    {
        let parts = self.command(scope, at)?;
        let behind = at + width(self.bytes[at]);
        let Some((left, right)) = parts else {
            return Ok(behind);
        };
        let middle = self.form(left, behind)?;
        self.form(right, middle)
    }

    // The form at an offset, which is to end where the bytes end.
    fn whole(&self, scope: Scope, at: usize) -> Result<(), Fault>
        ensures { WholeJudged (H.Host.meaning self.now.host.now) self.now.count self.now.bytes.now (bits scope.bound) at result }
    {
        let end = self.form(scope, at)?;
        if end < self.bytes.len() {
            return Err(Fault::TrailingBytes(end));
        }
        Ok(())
    }

    // The definition at an offset, and the offset behind it. Its form is judged up to the definition's own end.
    fn definition(&self, at: usize) -> Result<usize, Fault>
        requires { at ≤ length self.now.bytes.now }
        ensures end { IfOk result
            (λ end. (end ≡ definition_end self.now.bytes.now at) × (end ≤ length self.now.bytes.now)) }
        ensures outcome { DefinitionJudged (H.Host.meaning self.now.host.now) self.now.count self.now.bytes.now at result }
    {
        let (formal, end) = read_definition_head(self.bytes, at)?;
        let body = Judge {
            host: self.host,
            count: self.count,
            bytes: &self.bytes[..end],
        };
        body.whole(Scope::empty().with(formal), at + 3)?;
        Ok(end)
    }

    // All definitions, and the offset behind them.
    fn definitions(&self) -> Result<usize, Fault>
        requires { 1 ≤ length self.now.bytes.now }
        ensures { MatchResult result
            (λ at. EndsIn (H.Host.meaning self.now.host.now) self.now.count self.now.bytes.now 0 at)
            (λ f. RestOutcome (H.Host.meaning self.now.host.now) self.now.count self.now.bytes.now self.now.count 1 (Err f)) }
    {
        (0..self.count).try_fold(1, |at, _| self.definition(at))
    }
}

// Judges a file with a host: accepted, which is so exactly if the bytes are the encoding of a file that is well-formed over
// what the host's sites can reply, or else its first fault.
pub fn check_file<H: Host>(host: &H, file: &[u8]) -> Result<(), Fault>
    ensures outcome { MatchResult result
        (λ _. FileOutcome (H.Host.meaning host.now) file.now (Ok (file_of file.now)))
        (λ f. FileOutcome (H.Host.meaning host.now) file.now (Err f)) }
    ensures encoded { MatchResult result
        (λ _. WellFormed (H.Host.meaning host.now) (file_of file.now) × (file.now ≡ file_bytes (file_of file.now)))
        (λ _. (x : File) → WellFormed (H.Host.meaning host.now) x → file.now ≢ file_bytes x) }
{
    if file.len() > LONGEST {
        return Err(Fault::TooLong);
    }
    let judge = Judge {
        host,
        count: read_count(file)?,
        bytes: file,
    };
    let at = judge.definitions()?;
    judge.whole(Scope::empty(), at)
}
