// Scripts: calls, a line for each, up to the first line that is at fault.
ghost use Rattle.std.specs.Prelude.{IfOk};
ghost use Rattle.std.specs.Str.Lines.{lines};
ghost use Rattle.scripts.specs.Scripts.{Reads};

use crate::fault::LineFault;
use crate::line::read_call;
use runs::call::Call;
use std::alloc::{AllocError, Global};

// A line that is at fault: its number, from 1, and what is wrong with it.
#[derive(Clone, Copy, PartialEq, Eq, Debug)]
pub struct BadLine {
    pub line: usize,
    pub fault: LineFault,
}

// The calls of a script, and its first line that is at fault, if one is: then they are those of the lines before it.
#[derive(Drop)]
pub struct Script {
    pub calls: Vec<Call>,
    pub bad: Option<BadLine>,
}

// Reads a script, to its first line that is at fault.
pub fn read_script(heap: Global, text: &str) -> Result<Script, AllocError>
    ensures { IfOk result (λ s. Reads (lines text.now) s.calls.items s.bad) }
{
    let lines = text.lines().collect::<Vec<&str>>(heap)?;
    let mut calls = Vec::new(heap);
    for (before, line) in lines.iter().enumerate() {
        match read_call(line) {
            Ok(Some(call)) => calls.push(call)?,
            Ok(None) => {}
            Err(fault) => {
                let bad = Some(BadLine {
                    line: before + 1,
                    fault,
                });
                return Ok(Script { calls, bad });
            }
        }
    }
    Ok(Script { calls, bad: None })
}
