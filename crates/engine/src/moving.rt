// A run moves on: a transition or a wait takes effect, and all that the run holds follows.
ghost use Rattle.std.specs.Prelude.{◌≡◌, ℕ, []};
ghost use Rattle.forms.specs.Reading.{expression_of};
ghost use Rattle.walks.specs.Contents.{content};
ghost use Rattle.runs.specs.declared.call.Call.TheVariants.{Go};
ghost use Rattle.runs.specs.Outcomes.{stepped, waited};
ghost use Rattle.events.specs.Acts.{act_of};
ghost use Rattle.steps.specs.Laws.{withdrawn_with};
ghost use Rattle.engine.specs.Stands.{state_of};
ghost use Rattle.engine.specs.Moves.{MayBeMade, MayBeAnswered, AnsweredSo, MayBeWaited};

use crate::plain::Plain;
use crate::recording::record;
use crate::settling::hold;
use crate::table::Cause;
use crate::whole::Whole;
use events::act::Act;
use events::event::Event;
use forms::pending::Pending;
use hosts::host::Host;
use steps::reply::Reply;
use steps::step::Step;
use walks::buffer::Buffer;

impl Plain {
    // A due call was made, and the form that this left has its lapsed calls ended, and is simplified.
    pub(crate) fn gone<H: Host>(&mut self, host: &H, step: &Step, form: &Buffer)
        requires { (n : ℕ) × MayBeMade (H.Host.meaning host.now) (state_of self.old) (Go n) (act_of step.now.act) [] (content step.now.form.now) (content form.now) }
        ensures { state_of self.new ≡ stepped (H.Host.meaning host.now) (state_of self.old) (Go 0) (act_of step.now.act) [] (expression_of (content step.now.form.now)) }
    {
        if let Act::Called { site, .. } = step.act {
            self.issued += 1;
            self.table.count(site, Cause::Called);
        }
        let left = Whole::new(step.form);
        self.table.count_lapsed(left, host, self.clock);
        let event = Event {
            clock: self.clock,
            act: step.act,
        };
        record(&mut self.events, event);
        hold(&mut self.form, form);
    }

    // A pending call was answered, and the form that this left is simplified.
    pub(crate) fn answered(&mut self, call: Pending, reply: &Reply, form: &Buffer)
        requires { MayBeAnswered (state_of self.old) call.ticket call.site (act_of reply.now.step.act) (content self.old.form) reply.now.pruned (content form.now) }
        ensures { AnsweredSo (state_of self.old) (state_of self.new) call.ticket (act_of reply.now.step.act) (withdrawn_with call.ticket (content self.old.form) reply.now.pruned) (content form.now) }
    {
        self.table.count(call.site, Cause::Answered);
        self.table
            .count_withdrawn(&self.form, reply.pruned, call.ticket);
        let event = Event {
            clock: self.clock,
            act: reply.step.act,
        };
        record(&mut self.events, event);
        hold(&mut self.form, form);
    }

    // Time has passed, so many ticks, and this form was left.
    pub(crate) fn waited<H: Host>(&mut self, host: &H, ticks: u32, form: &Buffer)
        requires { MayBeWaited (H.Host.meaning host.now) (state_of self.old) ticks (content form.now) }
        ensures { state_of self.new ≡ waited (H.Host.meaning host.now) (state_of self.old) ticks }
    {
        let clock = self.clock + ticks;
        let left = Whole::new(&self.form);
        self.table.count_lapsed(left, host, clock);
        self.clock = clock;
        hold(&mut self.form, form);
    }
}
