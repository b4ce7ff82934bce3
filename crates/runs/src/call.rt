// The three calls that move a run on.
ghost use Rattle.std.specs.Prelude.{Some};
ghost use Rattle.runs.specs.Calls.{line_of};

use std::fmt;

// Go takes the due call of a number, counted from the left, from 0. Answer gives the pending call of a ticket its reply, a
// value. Wait lets a number of ticks pass.
#[derive(Clone, Copy, PartialEq, Eq, Debug)]
pub enum Call {
    Go(u32),
    Answer(u32, u16),
    Wait(u32),
}

// The line of a script that says the call: `answer 1 6`
impl fmt::Display for Call {
    ghost output = { λ c. Some (line_of c) };

    fn fmt<W: fmt::Write>(&self, f: &mut fmt::Formatter<W>) -> fmt::Result {
        match self {
            Call::Go(number) => write!(f, "go {number}"),
            Call::Answer(ticket, value) => write!(f, "answer {ticket} {value}"),
            Call::Wait(ticks) => write!(f, "wait {ticks}"),
        }
    }
}
