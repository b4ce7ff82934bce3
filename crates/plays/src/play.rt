// A run begun and played.
ghost use Rattle.std.specs.Prelude.{IfOk};
ghost use Rattle.engine.specs.Stands.{state_of};
ghost use Rattle.plays.specs.Plays.{Plays};

use crate::played::Played;
use engine::run::Run;
use hosts::host::Host;
use runs::call::Call;
use std::alloc::{AllocError, Global};

// Begins a run with a file, and makes the calls, one after the other, refused or not.
pub fn play<H: Host + Copy>(
    heap: Global,
    host: H,
    file: &[u8],
    calls: &[Call],
) -> Result<Played<H>, AllocError>
    ensures { IfOk result (λ p. Plays (H.Host.meaning host) file.now calls.now p.judged p.responses.items (state_of p.run.plain)) }
{
    let (mut run, judged) = Run::begin(host, file);
    let mut responses = Vec::new(heap);
    // Kept: a loop that pushes. Collected from a `map`, whose closure changes the run, nothing is known of the run afterwards.
    for call in calls {
        responses.push(run.make(*call))?;
    }
    Ok(Played {
        run,
        judged,
        responses,
    })
}
