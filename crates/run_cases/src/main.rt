// Begins runs, makes calls that are accepted and calls that are refused, and prints what comes of each and what the run holds
// afterwards.
#![tactic(auto)]

use engine::run::Run;
use hosts::host::Host;
use hosts::local::Local;
use hosts::sheet::Sheet;
use runs::call::Call;
use runs::call::Call::{Answer, Go, Wait};
use std::io;

// The call of let with 5.
const LET_5: [u8; 6] = [0, 1, 0, 0, 0, 5];

// The call of if with 0, to which nothing is ever replied.
const IF_0: [u8; 6] = [0, 1, 1, 0, 0, 0];

// A timer of 3 ticks.
const TIMER: [u8; 6] = [0, 1, 3, 0, 0, 3];

// Either of two replies, each of which goes on as the variable 7.
const BOTH: [u8; 19] = [0, 4, 7, 3, 1, 0, 0, 0, 1, 1, 0, 0, 0, 2, 1, 0, 1, 0, 7];

// The first of two replies, which goes on as the variable 0.
const FIRST: [u8; 19] = [0, 5, 0, 1, 0, 1, 0, 0, 3, 1, 0, 0, 0, 1, 1, 0, 0, 0, 2];

// A pruning in the left part of another of the same variable.
const SHADOWED: [u8; 20] = [0, 5, 0, 5, 0, 1, 0, 1, 0, 0, 1, 3, 0, 0, 9, 1, 0, 0, 0, 4];

// A site that is not local.
const UNKNOWN: [u8; 6] = [0, 1, 4, 0, 0, 0];

// A definition that calls itself, and a goal that calls it.
const ENDLESS: [u8; 14] = [1, 0, 0, 5, 2, 0, 0, 0, 0, 2, 0, 0, 0, 0];

// A definition that calls itself four times at once, and a goal that calls it.
const FOURFOLD: [u8; 32] = [
    1, 0, 0, 23, 3, 3, 3, 2, 0, 0, 0, 0, 2, 0, 0, 0, 0, 2, 0, 0, 0, 0, 2, 0, 0, 0, 0, 2, 0, 0, 0, 0,
];

// A sheet of two sites. Site 1 replies to 0 to 9 at an age of 2 to 4 ticks with 1 or 2, and site 2 to anything at an age of up to
// 3 ticks, or never.
const ROWS: [u8; 40] = [
    0x10, 1, 0, 0, 0, 9, 0, 0x11, 0, 0, 0, 2, 0, 0, 0, 4, 0, 1, 0, 2, 0x10, 2, 0, 0, 255, 255, 1,
    0x11, 0, 0, 0, 0, 0, 0, 0, 3, 0, 0, 255, 255,
];

// Calls of both sites.
const SITES: [u8; 12] = [0, 3, 1, 1, 0, 0, 5, 1, 2, 0, 0, 5];

// A call of the second site.
const SECOND: [u8; 6] = [0, 1, 2, 0, 0, 5];

// What comes of a call.
fn make<H: Host + Copy>(rt: &HostRuntime, run: &mut Run<H>, call: Call) -> io::Result<()> {
    match run.make(call) {
        Ok(()) => println!(rt; "  {call}: accepted"),
        Err(refusal) => println!(rt; "  {call}: {refusal}"),
    }
}

// All that a run holds.
fn show<H: Host + Copy>(rt: &HostRuntime, run: &Run<H>) -> io::Result<()> {
    let clock = run.clock();
    let size = run.size();
    let due = run.due_count();
    print!(rt; "  clock {clock}, size {size}, due {due}, form")?;
    for byte in run.form().iter().take(32) {
        print!(rt; " {byte:02x}")?;
    }
    println!(rt; "")?;
    for event in (0..run.event_count())
        .filter_map(|number| run.event(number))
        .take(8)
    {
        let clock = event.clock;
        let number = event.number();
        let value = event.value();
        let kind = event.kind();
        println!(rt; "  event {clock} {kind:?} {number} {value}")?;
    }
    for site in 0..32u8 {
        if let Some(totals) = run.totals(site).filter(|totals| totals.called > 0) {
            println!(rt; "  site {site} {totals:?}")?;
        }
    }
    Ok(())
}

// Begins a run, and makes calls.
fn play<H: Host + Copy>(
    rt: &HostRuntime,
    name: &str,
    host: H,
    file: &[u8],
    calls: &[Call],
) -> io::Result<()> {
    let (mut run, judged) = Run::begin(host, file);
    match judged {
        Ok(()) => println!(rt; "{name}: accepted")?,
        Err(fault) => println!(rt; "{name}: {fault}")?,
    }
    for call in calls {
        make(rt, &mut run, *call)?;
    }
    show(rt, &run)
}

// Begins a run, makes its first due call so many times, and once more.
fn repeat(rt: &HostRuntime, name: &str, file: &[u8], times: usize) -> io::Result<()> {
    let (mut run, _) = Run::begin(Local, file);
    let accepted = (0..times).filter(|_| run.go(0).is_ok()).count();
    println!(rt; "{name}: {accepted} of {times} go 0 accepted")?;
    show(rt, &run)?;
    make(rt, &mut run, Go(0))?;
    show(rt, &run)
}

fn replies(rt: &HostRuntime) -> io::Result<()> {
    play(
        rt,
        "let(5)",
        Local,
        &LET_5,
        &[
            Answer(1, 5),
            Wait(1),
            Wait(0),
            Go(1),
            Go(0),
            Go(0),
            Answer(1, 6),
            Answer(2, 5),
            Answer(1, 5),
            Answer(1, 5),
        ],
    )?;
    play(rt, "if(0)", Local, &IF_0, &[Go(0), Answer(1, 0), Wait(1)])?;
    play(
        rt,
        "either, going on",
        Local,
        &BOTH,
        &[Go(0), Go(0), Answer(1, 1)],
    )?;
    play(
        rt,
        "either, first",
        Local,
        &FIRST,
        &[
            Go(0),
            Go(0),
            Answer(2, 2),
            Answer(1, 1),
            Go(0),
            Answer(3, 2),
        ],
    )?;
    play(rt, "shadowed", Local, &SHADOWED, &[Go(1), Answer(1, 4)])
}

fn times(rt: &HostRuntime) -> io::Result<()> {
    play(
        rt,
        "rtimer(3)",
        Local,
        &TIMER,
        &[
            Go(0),
            Wait(4),
            Wait(2),
            Answer(1, 0),
            Wait(1),
            Wait(1),
            Answer(1, 0),
            Wait(1),
        ],
    )?;
    play(
        rt,
        "stop",
        Local,
        &[0, 0],
        &[
            Go(0),
            Wait(7),
            Wait(4_294_967_288),
            Wait(4_294_967_287),
            Wait(1),
        ],
    )
}

fn windows(rt: &HostRuntime) -> io::Result<()> {
    let host = Sheet::new(&ROWS);
    play(
        rt,
        "at the earliest",
        host,
        &SITES,
        &[
            Go(0),
            Go(0),
            Wait(1),
            Answer(1, 1),
            Wait(1),
            Answer(1, 3),
            Answer(1, 0),
            Answer(1, 2),
        ],
    )?;
    play(
        rt,
        "at the latest",
        host,
        &SITES,
        &[
            Go(1),
            Wait(1),
            Go(0),
            Wait(3),
            Answer(1, 7),
            Wait(1),
            Wait(1),
            Answer(2, 1),
            Wait(1),
        ],
    )?;
    play(
        rt,
        "never",
        host,
        &SECOND,
        &[Go(0), Wait(3), Wait(0), Wait(1), Answer(1, 0)],
    )
}

// What is not there is absent.
fn absent(rt: &HostRuntime) -> io::Result<()> {
    let (run, _) = Run::begin(Local, &LET_5);
    let event = run.event(0);
    let byte = run.form_byte(run.size());
    let totals = run.totals(32);
    println!(rt; "absent: {event:?} {byte:?} {totals:?}")
}

fn limits(rt: &HostRuntime) -> io::Result<()> {
    play(
        rt,
        "unknown site",
        Local,
        &UNKNOWN,
        &[Go(0), Answer(1, 0), Wait(1)],
    )?;
    repeat(rt, "four calls of itself", &FOURFOLD, 227)?;
    repeat(rt, "calls of itself", &ENDLESS, 512)
}

fn main(rt: HostRuntime) -> io::Result<()> {
    replies(&rt)?;
    times(&rt)?;
    windows(&rt)?;
    absent(&rt)?;
    limits(&rt)
}
