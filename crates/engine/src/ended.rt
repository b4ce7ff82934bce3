// Pending calls that end are counted, each at its site.
ghost use Rattle.std.specs.Prelude.{Bool, filter};
ghost use Rattle.orc.specs.Calls.{pending_calls, lapses};
ghost use Rattle.orc.specs.Calls as calls;
ghost use Rattle.forms.specs.Heads.{expression};
ghost use Rattle.walks.specs.Contents.{content};
ghost use Rattle.steps.specs.Laws.{withdrawn_with};
ghost use Rattle.engine.specs.Tallies.{by_cause, CountsIn, Room};
ghost use Rattle.engine.specs.Ended.{Decides};
ghost use Rattle.engine.specs.Moves.{FormWithin};

use crate::table::{Cause, Table};
use crate::whole::Whole;
use forms::form::Form;
use forms::pending::Pending;
use hosts::host::Host;
use places::stretch::Stretch;
use places::tickets::pending_calls;
use walks::ages::within_reach;
use walks::buffer::Buffer;

impl Table {
    // Counts the pending calls of a form that end by a test.
    fn count_ended<E: Fn(Pending) -> bool>(&mut self, whole: Whole, ends: E, cause: Cause)
        requires callable { E.IsAlwaysCallable ends }
        requires room { (test : calls.Pending → Bool) × Decides (E.post ends) test × Room self.old cause (filter test (pending_calls (expression whole.form))) }
        ensures { (test : calls.Pending → Bool) → Decides (E.post ends) test → Room self.old cause (filter test (pending_calls (expression whole.entry.form))) → CountsIn self.old self.new (by_cause cause (filter test (pending_calls (expression whole.entry.form)))) }
    {
        // Kept: an `if` in the loop, not `filter`. The check writes no well-formed statement of a loop over the calls of a
        // borrowed form by a test of any type.
        for placed in pending_calls(whole.form) {
            if ends(placed.call) {
                self.count(placed.call.site, cause);
            }
        }
    }

    // Counts the pending calls of a form that no window reaches at a tick.
    pub(crate) fn count_lapsed<H: Host>(&mut self, whole: Whole, host: &H, tick: u32)
        requires { Room self.old Cause.Lapsed (filter (lapses (H.Host.meaning host.now) tick) (pending_calls (expression whole.form))) }
        ensures { CountsIn self.old self.new (by_cause Cause.Lapsed (filter (lapses (H.Host.meaning host.now) tick) (pending_calls (expression whole.entry.form)))) }
    {
        self.count_ended(
            whole,
            |call| !within_reach(host, call, u64::from(tick)),
            Cause::Lapsed,
        );
    }

    // Counts the pending calls that ended with a stretch of a form, all but the one with a ticket.
    pub(crate) fn count_withdrawn(&mut self, form: &Buffer, pruned: Option<Stretch>, ticket: u32)
        requires form { FormWithin (content form.now) pruned }
        requires room { Room self.old Cause.Withdrawn (withdrawn_with ticket (content form.now) pruned) }
        ensures { CountsIn self.old self.new (by_cause Cause.Withdrawn (withdrawn_with ticket (content form.now) pruned)) }
    {
        let Some(Stretch { at, end }) = pruned else {
            return;
        };
        let ended = Whole {
            form: Form::new(&form.as_slice()[at..end]),
        };
        self.count_ended(ended, |call| call.ticket != ticket, Cause::Withdrawn);
    }
}
