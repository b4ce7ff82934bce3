// What an accepted call leaves: forms with what lapses ended, and simplified, and no larger than a run can hold.
ghost use Rattle.std.specs.Prelude.{◌≡◌, ◌<◌, ◌≤◌, length, MatchResult};
ghost use Rattle.orc.specs.Expressions.{bytes as form_bytes};
ghost use Rattle.orc.specs.Simplified.{simplified};
ghost use Rattle.orc.specs.Calls.{lapsed};
ghost use Rattle.forms.specs.Heads.{expression};
ghost use Rattle.walks.specs.Contents.{content};
ghost use Rattle.runs.specs.Outcomes.{largest_form};

use crate::whole::Whole;
use hosts::host::Host;
use runs::refusal::Refusal;
use walks::buffer::Buffer;
use walks::endless::Endless;
use walks::settling::settle_into;

// How many bytes the form of a run can have.
const LARGEST_FORM: usize = 4096;

// Makes a buffer hold a form with the pending calls ended that no window reaches at a tick, and simplified.
// Kept: beside the public `settle_into`, and `simplify` beside `simplify_into`. The public ones write behind what a buffer holds,
// and may find no room. These are private, and empty their buffer first, so they have no error to tell.
pub(crate) fn settle<H: Host>(host: &H, left: Whole, tick: u32, out: &mut Buffer)
    ensures { content out.new ≡ form_bytes (simplified (lapsed (H.Host.meaning host.now) tick (expression left.entry.form))) }
{
    out.clear();
    settle_into(host, left.form, u64::from(tick), out).unwrap();
}

// Makes a buffer hold a form simplified, with every pending call left.
pub(crate) fn simplify(left: Whole, out: &mut Buffer)
    ensures { content out.new ≡ form_bytes (simplified (expression left.entry.form)) }
{
    settle(&Endless, left, 0, out);
}

// Makes a buffer hold what another holds.
// Kept: only what is held is copied, which `*form` would not do.
pub(crate) fn hold(held: &mut Buffer, form: &Buffer)
    ensures { content held.new ≡ content form.now }
{
    held.clear();
    held.extend_from_slice(form.as_slice()).unwrap();
}

// Refuses a form that is larger than a run can hold.
pub(crate) fn check_size(form: &Buffer) -> Result<(), Refusal>
    ensures { MatchResult result (λ _. length (content form.now) ≤ largest_form) (λ f. (f ≡ Refusal.Outgrown (length (content form.now))) × (largest_form < length (content form.now))) }
{
    let size = form.len();
    if size > LARGEST_FORM {
        return Err(Refusal::Outgrown(size));
    }
    Ok(())
}
