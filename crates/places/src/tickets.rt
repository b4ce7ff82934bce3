// The pending calls of a form, which a scan meets command by command.
ghost use Rattle.std.specs.Prelude.{◌≡◌, ℕ, ◌+◌, ◌≤◌, length, is_some, IfSome, nat_eq, nat_lt, All};
ghost use Rattle.std.specs.List.{find};
ghost use Rattle.std.specs.Option.{option_map};
ghost use Rattle.orc.specs.Calls.{pending_calls};
ghost use Rattle.orc.specs.Sound.{standing};
ghost use Rattle.forms.specs.Heads.{expression, IsForm};
ghost use Rattle.forms.specs.Pendings.{pending_of};
ghost use Rattle.places.specs.Scans.{behind, placed_from, first_place, ticket_place};
ghost use Rattle.places.specs.Tickets.{placed_of, placed_left, pendings_left};

use formats::widths::width;
use forms::form::Form;
use forms::pending::Pending;

// A pending call, and the offset of its command.
#[derive(Clone, Copy, PartialEq, Eq, Debug)]
pub struct Placed {
    pub place: usize,
    pub call: Pending,
}

// The pending calls that a scan of some bytes meets from an offset on, from the left.
#[derive(Clone, Copy)]
pub struct PendingCalls<'a> {
    bytes: &'a [u8],
    at: usize,
}

// The offset behind the command at an offset, if the whole command is there.
fn behind_command(bytes: &[u8], at: usize) -> Option<usize>
    ensures { result ≡ behind bytes.now at }
{
    let step = width(*bytes.get(at)?);
    (step > 0 && step <= bytes.len() - at).then_some(at + step)
}

impl<'a> Iterator for PendingCalls<'a> {
    ghost use Rattle.std.specs.Iterator.{YieldsFirstBy, item_count};
    ghost use Rattle.places.specs.Tickets.{placed_of, placed_left};

    type Item = Placed;

    ghost next_gives = { YieldsFirstBy placed_of placed_left };

    ghost remaining = { item_count placed_left };

    // Kept: a loop. How far the next command stands is read from the bytes, so no slice method steps through them.
    fn next(&mut self) -> Option<Placed> {
        while let Some(next) = behind_command(self.bytes, self.at) {
            let place = self.at;
            self.at = next;
            if let Some(call) = Pending::read(self.bytes, place) {
                return Some(Placed { place, call });
            }
        }
        None
    }
}

// The pending calls that a scan of a form meets from an offset on.
// Kept: that a whole call stands at each place is said here and below. A `Placed` borrows no bytes of which its type could say it.
pub fn pending_calls_from(form: Form, from: usize) -> PendingCalls
    ensures placed { placed_left result ≡ placed_from form.entry.bytes.now from }
    ensures within { All (λ p. p.place + 12 ≤ length form.entry.bytes.now) (placed_left result) }
{
    PendingCalls {
        bytes: form.as_bytes(),
        at: from,
    }
}

// The pending calls of a form, from the left.
pub fn pending_calls(form: Form) -> PendingCalls
    ensures placed { placed_left result ≡ placed_from form.entry.bytes.now 0 }
    ensures all { IsForm form.entry.bytes.now → pendings_left result ≡ pending_calls (expression form.entry) }
    ensures within { All (λ p. p.place + 12 ≤ length form.entry.bytes.now) (placed_left result) }
{
    pending_calls_from(form, 0)
}

// The first pending call of a form with a ticket.
pub fn first_with_ticket(form: Form, ticket: u32) -> Option<Placed>
    ensures first { option_map placed_of result ≡ find (λ p. nat_eq p.call.ticket ticket) (placed_from form.entry.bytes.now 0) }
    ensures place { IsForm form.entry.bytes.now → option_map (λ p. p.place) result ≡ ticket_place ticket (expression form.entry) }
    ensures call { IsForm form.entry.bytes.now → option_map (λ p. pending_of p.call) result ≡ find (λ q. nat_eq ticket q.ticket) (pending_calls (expression form.entry)) }
    ensures found { IsForm form.entry.bytes.now → is_some result ≡ nat_lt 0 (standing ticket (expression form.entry)) }
    ensures ticket { IfSome result (λ p. p.call.ticket ≡ ticket) }
    ensures within { IfSome result (λ p. p.place + 12 ≤ length form.entry.bytes.now) }
{
    pending_calls(form).find(|placed| placed.call.ticket == ticket)
}

// The offset of the first pending call of a form with a ticket.
pub fn ticket_place(form: Form, ticket: u32) -> Option<usize>
    ensures place { IsForm form.entry.bytes.now → result ≡ ticket_place ticket (expression form.entry) }
    ensures found { IsForm form.entry.bytes.now → is_some result ≡ nat_lt 0 (standing ticket (expression form.entry)) }
    ensures first { result ≡ first_place ticket (placed_from form.entry.bytes.now 0) }
    ensures within { IfSome result (λ p. p + 12 ≤ length form.entry.bytes.now) }
{
    first_with_ticket(form, ticket).map(|placed| placed.place)
}
