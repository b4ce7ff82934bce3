// The transitions that go and answer make, before they take effect.
ghost use Rattle.std.specs.Prelude.{◌≡◌, true, [], MatchOption, MatchResult};
ghost use Rattle.orc.specs.Meaning.{Meaning};
ghost use Rattle.orc.specs.Sound.{standing};
ghost use Rattle.walks.specs.Contents.{content};
ghost use Rattle.runs.specs.declared.call.Call.TheVariants.{Go, Answer};
ghost use Rattle.runs.specs.Outcomes.{Refuses};
ghost use Rattle.events.specs.Acts.{act_of};
ghost use Rattle.engine.specs.Stands.{state_of};
ghost use Rattle.engine.specs.Moves.{Move, StandsThere, ReplyStep};

use crate::plain::Plain;
use files::contents::Contents;
use hosts::host::Host;
use places::due::{due_count, due_place};
use places::tickets::{Placed, first_with_ticket};
use runs::refusal::Refusal;
use steps::calls::make_call;
use steps::replies::make_reply;
use steps::reply::Reply;
use steps::step::Step;
use walks::ages::can_reply;
use walks::buffer::Buffer;

impl Plain {
    // The transition of the due call of a number, whatever sites reply.
    // What is lent is a table to measure forms by, and a buffer for the form that is left.
    pub(crate) fn due_step<'b>(
        &self,
        n: u32,
        lengths: &mut [u16],
        out: &'b mut Buffer,
    ) -> Result<Step<'b>, Refusal>
        ensures { MatchResult result
            (λ s. (m : Meaning) → Move m (state_of self.now) (Go n) (act_of s.act) [] (content s.form.now))
            (λ f. (m : Meaning) → Refuses m (state_of self.now) (Go n) f) }
    {
        let file = self.loaded_file()?;
        let form = self.standing().form;
        // Kept: `let .. else`. Of a count in the closure of `ok_or_else` nothing is known without a contract written on it.
        let Some(place) = due_place(form, n as usize) else {
            return Err(Refusal::NoneDue(due_count(form)));
        };
        if self.events.is_full() {
            return Err(Refusal::RecordFull);
        }
        let contents = Contents::new(file.as_slice());
        let ticket = self.issued + 1;
        Ok(make_call(form, place, contents, ticket, self.clock, lengths, out).unwrap())
    }

    // The pending call of a ticket and its place in the form, if it stands.
    pub(crate) fn standing_call(&self, ticket: u32) -> Option<Placed>
        ensures { MatchOption result
            (standing ticket (state_of self.now).expression ≡ 0)
            (λ p. (p.call.ticket ≡ ticket) × StandsThere (state_of self.now) ticket p) }
    {
        first_with_ticket(self.standing().form, ticket)
    }

    // The transition of a reply to a pending call that stands in the form.
    // What is lent is as in `due_step`.
    pub(crate) fn reply_step<'b, H: Host>(
        &self,
        host: &H,
        standing: Placed,
        value: u16,
        lengths: &mut [u16],
        out: &'b mut Buffer,
    ) -> Result<Reply<'b>, Refusal>
        requires { ((state_of self.now).loaded ≡ true) × StandsThere (state_of self.now) standing.call.ticket standing }
        ensures { MatchResult result
            (λ x. ReplyStep (H.Host.meaning host.now) (state_of self.now) standing.call.ticket value standing.call.site (act_of x.step.act) (content self.now.form) x.pruned (content x.step.form.now))
            (λ f. Refuses (H.Host.meaning host.now) (state_of self.now) (Answer standing.call.ticket value) f) }
    {
        let Placed { place, call } = standing;
        if !can_reply(host, call, u64::from(self.clock), value) {
            return Err(Refusal::OutsideEveryWindow(call.ticket));
        }
        if self.events.is_full() {
            return Err(Refusal::RecordFull);
        }
        let form = self.measured(lengths).form;
        Ok(make_reply(form, place, value, out).unwrap())
    }
}
