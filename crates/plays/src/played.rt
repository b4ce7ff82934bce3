// What comes of a list of calls.
use engine::run::Run;
use formats::fault::Fault;
use runs::refusal::Refusal;

// The run as the calls left it, the judgement on its file, and the response to each call.
#[derive(Drop)]
pub struct Played<H> {
    pub run: Run<H>,
    pub judged: Result<(), Fault>,
    pub responses: Vec<Result<(), Refusal>>,
}
