// What the age of a call allows, by the windows that a host tells of. Ticks are counted in 64 bits, so that no sum of a clock
// and an age is too large.
ghost use Rattle.std.specs.Prelude.{◌≡◌};
ghost use Rattle.orc.specs.Meaning.{handle, reaches, admits, within_reach, can_stand, can_reply};
ghost use Rattle.walks.specs.Ages.{window_of, passes_at};

use forms::pending::Pending;
use hosts::host::{Host, NO_END};

// Whether a window with these ticks reaches a tick, for a call made at the tick `since`. The window's values do not matter.
fn reaches(ticks: (u32, u32), since: u32, tick: u64) -> bool
    ensures { result ≡ reaches since tick (window_of ticks (0, 0)) }
{
    let (_, latest) = ticks;
    latest == NO_END || tick <= u64::from(since) + u64::from(latest)
}

// Whether a window with these ticks and values admits a reply at a tick.
// Kept: the pairs that a host tells, and the numbers of the question. A struct would be filled at the one call and read once.
fn admits(ticks: (u32, u32), values: (u16, u16), since: u32, tick: u64, reply: u16) -> bool
    ensures { result ≡ admits since tick reply (window_of ticks values) }
{
    let (earliest, _) = ticks;
    let (lowest, highest) = values;
    u64::from(since) + u64::from(earliest) <= tick
        && reaches(ticks, since, tick)
        && (lowest..=highest).contains(&reply)
}

// Whether the window of a number, if there is one, reaches a tick.
// Kept: host, call and tick apart, here and below. A call is one thing, and is asked about at many ticks; a struct of the three
// would be made for each question.
fn window_reaches<H: Host>(host: &H, call: Pending, number: usize, tick: u64) -> bool
    ensures { result ≡ passes_at (reaches call.clock tick) (handle (H.Host.meaning host.now) call.site call.value).windows number }
{
    host.ticks(call.site, call.value, number)
        .is_some_and(|ticks| reaches(ticks, call.clock, tick))
}

// Whether the window of a number, if there is one, admits a reply at a tick.
// Kept: beside `window_reaches`, which asks the host for no values.
fn window_admits<H: Host>(host: &H, call: Pending, number: usize, tick: u64, reply: u16) -> bool
    ensures { result ≡ passes_at (admits call.clock tick reply) (handle (H.Host.meaning host.now) call.site call.value).windows number }
{
    host.ticks(call.site, call.value, number)
        .zip(host.values(call.site, call.value, number))
        .is_some_and(|(ticks, values)| admits(ticks, values, call.clock, tick, reply))
}

// Whether some window of a call reaches a tick.
// Kept: beside `can_reply`, each one line. A function over both would take a test of a number, which each would still build.
pub fn within_reach<H: Host>(host: &H, call: Pending, tick: u64) -> bool
    ensures { result ≡ within_reach (handle (H.Host.meaning host.now) call.site call.value) call.clock tick }
{
    (0..host.window_count(call.site, call.value)).any(|number| window_reaches(
        host, call, number, tick,
    ))
}

// Whether a call can still be unanswered at a tick.
pub fn can_stand<H: Host>(host: &H, call: Pending, tick: u64) -> bool
    ensures { result ≡ can_stand (handle (H.Host.meaning host.now) call.site call.value) call.clock tick }
{
    host.silent(call.site, call.value) || within_reach(host, call, tick)
}

// Whether a call can be answered at a tick with a reply.
pub fn can_reply<H: Host>(host: &H, call: Pending, tick: u64, reply: u16) -> bool
    ensures { result ≡ can_reply (handle (H.Host.meaning host.now) call.site call.value) call.clock tick reply }
{
    (0..host.window_count(call.site, call.value)).any(|number| window_admits(
        host, call, number, tick, reply,
    ))
}
