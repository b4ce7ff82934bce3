// The calls that move a run on.
ghost use Rattle.std.specs.Prelude.{◌≡◌};
ghost use Rattle.runs.specs.declared.call.Call.TheVariants.{Go, Answer, Wait};
ghost use Rattle.runs.specs.Outcomes.{Outcome};
ghost use Rattle.engine.specs.Stands.{state_of, KeptIfRefused};
ghost use Rattle.engine.specs.Making.{EveryTransitionIsMade, EveryPassageIsWaited};

use crate::run::Run;
use crate::settling::{check_size, settle, simplify};
use crate::whole::Whole;
use hosts::host::Host;
use runs::call::Call;
use runs::refusal::Refusal;

impl<H: Host + Copy> Run<H> {
    // Makes the due call of a number, counted from the left, from 0. A site call becomes pending with the next ticket, and a
    // definition call becomes the definition's body; then the pending calls end that no window reaches, and the form is
    // simplified. Refused if there is no such call, and where record or form would be too large.
    pub fn go(&mut self, n: u32) -> Result<(), Refusal>
        ensures outcome { Outcome (H.Host.meaning self.old.host) (state_of self.old.plain) (Go n) result (state_of self.new.plain) }
        ensures made { EveryTransitionIsMade (H.Host.meaning self.old.host) (state_of self.old.plain) (Go n) result (state_of self.new.plain) }
        ensures refused { KeptIfRefused result self.old.plain self.new.plain }
        ensures host { self.new.host ≡ self.old.host }
    {
        let step = self.plain.due_step(n, &mut self.lengths, &mut self.left)?;
        let form = Whole::measured(step.form, &mut self.lengths);
        settle(&self.host, form, self.plain.clock, &mut self.settled);
        check_size(&self.settled)?;
        self.plain.gone(&self.host, &step, &self.settled);
        Ok(())
    }

    // Hands in a reply to the pending call of a ticket. The call becomes stop, and the value goes outward to the nearest
    // sequential that has the call on its left, or pruning that has it on its right; with neither it is published. Then the
    // form is simplified. Refused if the ticket does not stand, if no window of the call admits the value now, and where
    // record or form would be too large.
    pub fn answer(&mut self, ticket: u32, value: u16) -> Result<(), Refusal>
        ensures outcome { Outcome (H.Host.meaning self.old.host) (state_of self.old.plain) (Answer ticket value) result (state_of self.new.plain) }
        ensures made { EveryTransitionIsMade (H.Host.meaning self.old.host) (state_of self.old.plain) (Answer ticket value) result (state_of self.new.plain) }
        ensures refused { KeptIfRefused result self.old.plain self.new.plain }
        ensures host { self.new.host ≡ self.old.host }
    {
        self.plain.loaded_file()?;
        // Kept: `let .. else`, which a rule of this project asks for here: docs/DECISIONS.md says why.
        let Some(standing) = self.plain.standing_call(ticket) else {
            return Err(Refusal::NotStanding(ticket));
        };
        let reply = self.plain.reply_step(
            &self.host,
            standing,
            value,
            &mut self.lengths,
            &mut self.left,
        )?;
        let form = Whole::measured(reply.step.form, &mut self.lengths);
        simplify(form, &mut self.settled);
        check_size(&self.settled)?;
        self.plain.answered(standing.call, &reply, &self.settled);
        Ok(())
    }

    // Lets time pass. Refused if a call is due and the wait is longer than 0, if a pending call that may not stay silent would be
    // past every window, and past the clock's end. Otherwise the clock moves, the pending calls end that no window reaches
    // any more, and the form is simplified; nothing is recorded.
    pub fn wait(&mut self, ticks: u32) -> Result<(), Refusal>
        ensures outcome { Outcome (H.Host.meaning self.old.host) (state_of self.old.plain) (Wait ticks) result (state_of self.new.plain) }
        ensures passed { EveryPassageIsWaited (H.Host.meaning self.old.host) (state_of self.old.plain) ticks result (state_of self.new.plain) }
        ensures refused { KeptIfRefused result self.old.plain self.new.plain }
        ensures host { self.new.host ≡ self.old.host }
    {
        self.plain.check_wait(&self.host, ticks)?;
        let standing = self.plain.measured(&mut self.lengths);
        let clock = self.plain.clock + ticks;
        settle(&self.host, standing, clock, &mut self.settled);
        self.plain.waited(&self.host, ticks, &self.settled);
        Ok(())
    }

    // Makes any of the three calls.
    pub fn make(&mut self, call: Call) -> Result<(), Refusal>
        ensures outcome { Outcome (H.Host.meaning self.old.host) (state_of self.old.plain) call result (state_of self.new.plain) }
        ensures refused { KeptIfRefused result self.old.plain self.new.plain }
        ensures host { self.new.host ≡ self.old.host }
    {
        match call {
            Call::Go(n) => self.go(n),
            Call::Answer(ticket, value) => self.answer(ticket, value),
            Call::Wait(ticks) => self.wait(ticks),
        }
    }
}
