// The engine for programs in C: `include/teyumbi.h` declares these functions and their structs.
#![tactic(auto)]

ghost use Rattle.controllers.specs.Judged.{Judged};
ghost use Rattle.controllers.specs.Played.{Played};

use controllers::check::check;
use controllers::event::Event;
use controllers::judgement::Judgement;
use controllers::order::Order;
use controllers::play::play;
use controllers::state::State;
use controllers::totals::Totals;

// Judges a sheet, and a file with the host that the sheet makes.
#[unsafe(no_mangle)]
pub extern "C" fn teyumbi_check(file: &[u8], sheet: &[u8], judgement: &mut Judgement)
    ensures { Judged file.now sheet.now judgement.new }
{
    *judgement = check(file, sheet);
}

// Begins a run of a file with the host that a sheet makes, makes the calls that are ordered, and writes what the run then holds.
#[unsafe(no_mangle)]
pub extern "C" fn teyumbi_play(
    file: &[u8],
    sheet: &[u8],
    calls: &mut [Order],
    form: &mut [u8],
    events: &mut [Event],
    totals: &mut [Totals],
    judgement: &mut Judgement,
    state: &mut State,
)
    ensures judged { Judged file.now sheet.now judgement.new }
    ensures played { Played file.now sheet.now
        (record { orders = calls.old; form = form.old; events = events.old; totals = totals.old })
        (record { orders = calls.new; form = form.new; events = events.new; totals = totals.new })
        judgement.new state.new }
{
    (*judgement, *state) = play(file, sheet, calls, form, events, totals);
}
