// A run of a parameter file with a host.
ghost use Rattle.std.specs.Prelude.{◌≡◌, Ok, Err, MatchResult, ◌≢◌};
ghost use Rattle.orc.specs.Files.{File, file_bytes, WellFormed};
ghost use Rattle.files.specs.Judgement.{FileOutcome};
ghost use Rattle.files.specs.Contents.{file_of};
ghost use Rattle.runs.specs.States as states;
ghost use Rattle.runs.specs.Moving.{NotLoadedStays};
ghost use Rattle.runs.specs.Faithful.{Faithful, CallsHaveOneHistory};
ghost use Rattle.engine.specs.Stands.{state_of};

use crate::plain::Plain;
use files::check::check_file;
use formats::fault::Fault;
use hosts::host::Host;
use walks::buffer::{Buffer, CAPACITY};

// The host, what the run holds beside it, and memory that its calls work in: a table to measure forms by, the form that a
// transition leaves, and this form settled. Each call writes anew what it reads there.
#[derive(Drop)]
pub struct Run<H> {
    pub(crate) host: H,
    pub(crate) plain: Plain,
    pub(crate) lengths: [u16; CAPACITY],
    pub(crate) left: Buffer,
    pub(crate) settled: Buffer,
}

impl<H: Host + Copy> Run<H> {
    // Begins a run, and judges its file as check does. With a file that is accepted the clock is 0, the record is empty, the
    // totals are 0, and what stands is the simplified goal; with one that is refused nothing is loaded.
    //
    // From there on the record can be believed, whatever is called: at every point it is a timed trace of the file's goal, every
    // such trace is recorded by some calls or followed until one meets a limit, every ticket is counted by what became of it,
    // and each call has exactly one outcome. The steps of these histories are the outcomes that go, answer and wait promise.
    pub fn begin(host: H, file: &[u8]) -> (Run<H>, Result<(), Fault>)
        ensures judged { MatchResult result.1
            (λ _. FileOutcome (H.Host.meaning host) file.now (Ok (file_of file.now)))
            (λ f. FileOutcome (H.Host.meaning host) file.now (Err f)) }
        ensures encoded { MatchResult result.1
            (λ _. WellFormed (H.Host.meaning host) (file_of file.now) × (file.now ≡ file_bytes (file_of file.now)))
            (λ _. (x : File) → WellFormed (H.Host.meaning host) x → file.now ≢ file_bytes x) }
        ensures begun { MatchResult result.1
            (λ _. state_of result.0.plain ≡ states.begun (file_of file.now))
            (λ _. state_of result.0.plain ≡ states.unloaded) }
        ensures host { result.0.host ≡ host }
        ensures faithful { MatchResult result.1
            (λ _. Faithful (H.Host.meaning host) (file_of file.now) × CallsHaveOneHistory (H.Host.meaning host) (file_of file.now))
            (λ _. NotLoadedStays (H.Host.meaning host)) }
    {
        let judged = check_file(&host, file);
        let plain = match judged {
            Ok(()) => Plain::loaded(file),
            Err(_) => Plain::unloaded(),
        };
        let run = Run {
            host,
            plain,
            lengths: [0; CAPACITY],
            left: Buffer::new(0),
            settled: Buffer::new(0),
        };
        (run, judged)
    }
}
