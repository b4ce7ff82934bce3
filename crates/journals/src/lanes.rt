// The calls of sites over a run's life, as the lanes of a picture.
ghost use Rattle.std.specs.Prelude.{IfOk, string_bytes};
ghost use Rattle.journals.specs.Journals.{Pictured};

use engine::run::Run;
use events::act::Act;
use events::event::Event;
use forms::form::Form;
use hosts::host::Host;
use pictures::lane::{Ending, Lane, Publication};
use pictures::picture::picture;
use places::tickets::pending_calls;
use runs::call::Call;
use std::alloc::{AllocError, Global};

// A picture, up to a clock, of the run that some calls make of a file that is accepted: a lane for each ticket, and the publications.
pub(crate) fn drawn<H: Host + Copy>(
    heap: Global,
    host: H,
    file: &[u8],
    calls: &[Call],
    clock: u32,
) -> Result<String, AllocError>
    ensures { IfOk result (λ t. Pictured clock (string_bytes t)) }
{
    let (mut run, _) = Run::begin(host, file);
    let mut lanes = Vec::new(heap);
    // Kept: a loop that pushes, here and below. Of what a closure changes nothing is known afterwards.
    for call in calls {
        if run.make(*call).is_ok() {
            if let Call::Go(_) = call {
                add_lane(&mut lanes, &run)?;
            }
            end_lanes(heap, &mut lanes, &run, *call)?;
        }
    }
    let publications = publications(heap, &run)?;
    picture(heap, lanes.as_slice(), publications.as_slice(), clock)
}

// A lane for the ticket that the newest event issued, if it is the call of a site. Tickets are numbered from 1.
fn add_lane<H>(lanes: &mut Vec<Lane>, run: &Run<H>) -> Result<(), AllocError> {
    let newest = run
        .event_count()
        .checked_sub(1)
        .and_then(|number| run.event(number));
    if let Some(
        Event {
            clock,
            act: Act::Called { site, value },
        },
    ) = newest
    {
        let ticket = lanes.last().map_or(1, |lane| lane.ticket.saturating_add(1));
        lanes.push(Lane {
            ticket,
            site,
            value,
            from: clock,
            end: Ending::Standing,
        })?;
    }
    Ok(())
}

// Ends each lane whose ticket no longer stands after a call that was accepted.
fn end_lanes<H>(
    heap: Global,
    lanes: &mut Vec<Lane>,
    run: &Run<H>,
    call: Call,
) -> Result<(), AllocError> {
    let mut standing = Vec::new(heap);
    for placed in pending_calls(Form::new(run.form())) {
        standing.push(placed.call.ticket)?;
    }
    for lane in lanes.iter_mut() {
        let stood = matches!(lane.end, Ending::Standing);
        if stood && !standing.contains(&lane.ticket) {
            lane.end = ending(call, lane.ticket, run.clock());
        }
    }
    Ok(())
}

// How a ticket ended at a call that was accepted, and after which it stands no longer: answered if the call gave its reply,
// withdrawn if it gave that of another ticket, and else lapsed.
fn ending(call: Call, ticket: u32, at: u32) -> Ending {
    match call {
        Call::Answer(answered, value) if answered == ticket => Ending::Answered { value, at },
        Call::Answer(_, _) => Ending::Withdrawn { at },
        Call::Go(_) | Call::Wait(_) => Ending::Lapsed { at },
    }
}

// The publications of a run.
fn publications<H>(heap: Global, run: &Run<H>) -> Result<Vec<Publication>, AllocError> {
    let mut publications = Vec::new(heap);
    for event in (0..run.event_count()).filter_map(|number| run.event(number)) {
        if let Act::Out(value) = event.act {
            publications.push(Publication {
                clock: event.clock,
                value,
            })?;
        }
    }
    Ok(publications)
}
