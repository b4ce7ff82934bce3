// Calls as they are ordered in numbers.
ghost use Rattle.std.specs.Prelude.{◌≡◌, List, IfSome};
ghost use Rattle.runs.specs.declared.call.Call as calls;
ghost use Rattle.runs.specs.Outcomes.{Response};
ghost use Rattle.runs.specs.Histories.{History};
ghost use Rattle.runs.specs.Recording.{InRange};
ghost use Rattle.engine.specs.Stands.{state_of};
ghost use Rattle.controllers.specs.Orders.{call_of, Makes, Met};

use crate::verdict::{NO_CALL, Verdict};
use engine::run::Run;
use hosts::host::Host;
use runs::call::Call;

// A call, and what it met. Kind 0 is go, with a number; 1 is answer, with a ticket as its number, and a value; 2 is wait, with ticks
// as its number.
#[repr(C)]
#[derive(Clone, Copy, Debug, Default)]
pub struct Order {
    pub kind: u32,
    pub number: u32,
    pub value: u32,
    pub outcome: Verdict,
}

impl Order {
    // The call that is ordered. There is none of another kind, and none with a value beyond 16 bits.
    pub fn call(self) -> Option<Call>
        ensures call { result ≡ call_of self }
        ensures in_range { IfSome result InRange }
    {
        let value = u16::try_from(self.value).ok()?;
        match self.kind {
            0 => Some(Call::Go(self.number)),
            1 => Some(Call::Answer(self.number, value)),
            2 => Some(Call::Wait(self.number)),
            _ => None,
        }
    }
}

// Makes the call that is ordered, if it is one, and says what it met.
fn make<H: Host + Copy>(run: &mut Run<H>, order: Order) -> Verdict
    ensures made { Makes (H.Host.meaning run.old.host) (state_of run.old.plain) order result (state_of run.new.plain) }
    ensures host { run.new.host ≡ run.old.host }
{
    match order.call() {
        Some(call) => Verdict::of(&run.make(call)),
        None => NO_CALL,
    }
}

// Makes the calls that are ordered, one after the other, refused or not, and notes what each met.
pub fn make_all<H: Host + Copy>(run: &mut Run<H>, orders: &mut [Order])
    ensures met { (cs : List calls.Call) × (rs : List Response) × Met orders.old cs rs orders.new
        × History (H.Host.meaning run.old.host) (state_of run.old.plain) cs rs (state_of run.new.plain) }
    ensures host { run.new.host ≡ run.old.host }
{
    for order in orders.iter_mut() {
        order.outcome = make(run, *order);
    }
}
