// Whether time can pass.
ghost use Rattle.std.specs.Prelude.{◌≡◌, false, MatchOption, MatchResult};
ghost use Rattle.std.specs.List.{AllByRecursion};
ghost use Rattle.orc.specs.Calls.{Pending, pending_calls};
ghost use Rattle.forms.specs.Heads.{expression};
ghost use Rattle.runs.specs.declared.call.Call.TheVariants.{Wait};
ghost use Rattle.runs.specs.Outcomes.{First, late, Refuses};
ghost use Rattle.engine.specs.Stands.{state_of};
ghost use Rattle.engine.specs.Moves.{CanPass};

use crate::plain::Plain;
use crate::whole::Whole;
use hosts::host::Host;
use places::due::due_count;
use places::tickets::pending_calls;
use runs::refusal::Refusal;
use walks::ages::can_stand;

// The last tick that a clock can show.
const LAST_CLOCK: u64 = 4_294_967_294;

// The ticket of the first pending call of a form that cannot stand without a reply any longer at a tick.
fn first_late<H: Host>(host: &H, whole: Whole, tick: u64) -> Option<u32>
    ensures { MatchOption result
        (AllByRecursion (λ p. late (H.Host.meaning host.now) tick p ≡ false) (pending_calls (expression whole.entry.form)))
        (λ k. (p : Pending) × First (late (H.Host.meaning host.now) tick) (pending_calls (expression whole.entry.form)) p × (p.ticket ≡ k)) }
{
    pending_calls(whole.form)
        .find(|placed| !can_stand(host, placed.call, tick))
        .map(|placed| placed.call.ticket)
}

impl Plain {
    // Refuses a wait over which time cannot pass, or past the clock's end.
    pub(crate) fn check_wait<H: Host>(&self, host: &H, ticks: u32) -> Result<(), Refusal>
        ensures { MatchResult result
            (λ _. CanPass (H.Host.meaning host.now) (state_of self.now) ticks)
            (λ f. Refuses (H.Host.meaning host.now) (state_of self.now) (Wait ticks) f) }
    {
        self.loaded_file()?;
        let standing = self.standing();
        let due = due_count(standing.form);
        if ticks > 0 && due > 0 {
            return Err(Refusal::DueFirst(due));
        }
        let tick = u64::from(self.clock) + u64::from(ticks);
        if let Some(ticket) = first_late(host, standing, tick) {
            return Err(Refusal::Overdue(ticket));
        }
        if tick > LAST_CLOCK {
            return Err(Refusal::ClockEnd(self.clock));
        }
        Ok(())
    }
}
