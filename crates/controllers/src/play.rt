// A run begun and played in the caller's memory.
ghost use Rattle.controllers.specs.Judged.{Judged};
ghost use Rattle.controllers.specs.Played.{Played};

use crate::event::{Event, write_events};
use crate::host::controller;
use crate::judgement::Judgement;
use crate::order::{Order, make_all};
use crate::state::{State, write_form};
use crate::totals::{Totals, write_totals};
use crate::verdict::Verdict;
use engine::run::Run;

// Begins a run of a file with the host that a sheet makes, makes the calls that are ordered, and writes what the run then holds.
pub fn play(
    file: &[u8],
    sheet: &[u8],
    orders: &mut [Order],
    form: &mut [u8],
    events: &mut [Event],
    totals: &mut [Totals],
) -> (Judgement, State)
    ensures judged { Judged file.now sheet.now result.0 }
    ensures played { Played file.now sheet.now
        (record { orders = orders.old; form = form.old; events = events.old; totals = totals.old })
        (record { orders = orders.new; form = form.new; events = events.new; totals = totals.new })
        result.0 result.1 }
{
    let (host, sheet_judged) = controller(sheet);
    let (mut run, file_judged) = Run::begin(host, file);
    make_all(&mut run, orders);
    write_form(&run, form);
    write_events(&run, events);
    write_totals(&run, totals);
    let judgement = Judgement {
        sheet: Verdict::of(&sheet_judged),
        file: Verdict::of(&file_judged),
    };
    (judgement, State::of(&run))
}
