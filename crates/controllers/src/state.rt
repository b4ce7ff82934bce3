// What a run holds, in numbers.
ghost use Rattle.std.specs.Prelude.{◌≡◌, min};
ghost use Rattle.orc.specs.Expressions.{bytes};
ghost use Rattle.engine.specs.Stands.{state_of};
ghost use Rattle.controllers.specs.Told.{greatest};
ghost use Rattle.controllers.specs.Shown.{numbers_of};
ghost use Rattle.controllers.specs.Written.{laid};

use engine::run::Run;

// The clock; how many bytes the form has, how many calls are due, and how many events are recorded.
#[repr(C)]
#[derive(Clone, Copy, Debug, Default)]
pub struct State {
    pub clock: u32,
    pub size: u32,
    pub due: u32,
    pub events: u32,
}

// A count, or the greatest number of 32 bits.
fn count(n: usize) -> u32
    ensures { result ≡ min n greatest }
{
    u32::try_from(n).unwrap_or(u32::MAX)
}

impl State {
    pub fn of<H>(run: &Run<H>) -> State
        ensures { result ≡ numbers_of (state_of run.now.plain) }
    {
        State {
            clock: run.clock(),
            size: count(run.size()),
            due: count(run.due_count()),
            events: count(run.event_count()),
        }
    }
}

// Writes the bytes of the standing form, as far as there is room.
pub fn write_form<H>(run: &Run<H>, form: &mut [u8])
    ensures { form.new ≡ laid (bytes (state_of run.now.plain).expression) form.old }
{
    let standing = run.form();
    let length = standing.len().min(form.len());
    form[..length].copy_from_slice(&standing[..length]);
}
