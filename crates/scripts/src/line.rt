// The lines of a script: what a line says, and the line that says a call.
ghost use Rattle.std.specs.Prelude.{◌≡◌, IfOk, Some, Ok, string_bytes};
ghost use Rattle.runs.specs.Calls.{line_of};
ghost use Rattle.runs.specs.Recording.{InRange};
ghost use Rattle.runs.specs.declared.call.Call.{Call as ACall};
ghost use Rattle.scripts.specs.Words.{words, words_left};
ghost use Rattle.scripts.specs.Lines.{Outcome, Says};

use crate::fault::LineFault;
use crate::number::{last_number, next_number};
use runs::call::Call;
use std::alloc::{AllocError, Global};
use std::str::SplitAsciiWhitespace;

// What a line says: a call, or nothing where it is blank or a comment. It is the only answer that the format has for the
// line, and the line that `write_call` writes says the call that it was written of.
pub fn read_call(line: &str) -> Result<Option<Call>, LineFault>
    ensures says { Says (words line.now) result }
    ensures only { (o : Outcome) → Says (words line.now) o → o ≡ result }
    ensures back { (c : ACall) → InRange c → line.now ≡ line_of c → result ≡ Ok (Some c) }
{
    read_words(line.split_ascii_whitespace())
}

// The line of a call.
pub fn write_call(heap: Global, call: Call) -> Result<String, AllocError>
    ensures { IfOk result (λ t. string_bytes t ≡ line_of call) }
{
    call.to_string(heap)
}

// What the words of a line say.
fn read_words(mut words: SplitAsciiWhitespace<'_>) -> Result<Option<Call>, LineFault>
    ensures { Says (words_left words.entry) result }
{
    let Some(word) = words.next() else {
        return Ok(None);
    };
    match word {
        "go" => Ok(Some(Call::Go(last_number(words)?))),
        "answer" => {
            let ticket = next_number(&mut words)?;
            let value = last_number(words)?;
            Ok(Some(Call::Answer(ticket, value)))
        }
        "wait" => Ok(Some(Call::Wait(last_number(words)?))),
        _ if word.starts_with('#') => Ok(None),
        _ => Err(LineFault::UnknownWord),
    }
}
