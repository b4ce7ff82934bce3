// Asks hosts what their sites can reply, at the edges too, and prints the answers.
#![tactic(auto)]

use hosts::host::Host;
use hosts::local::Local;
use hosts::pair::Pair;
use hosts::sheet::Sheet;
use reports::replies::replies_report;
use std::io;

// Site 1 has rows that overlap: values 0 to 9, then 5 to 20. Site 27 is silent for 7 alone.
const OVERLAP: [u8; 47] = [
    0x10, 1, 0, 0, 0, 9, 0, 0x11, 0, 0, 0, 2, 0, 0, 0, 4, 0, 1, 0, 2, 0x10, 1, 0, 5, 0, 20, 1,
    0x11, 0, 0, 0, 0, 255, 255, 255, 255, 0, 0, 255, 255, 0x10, 27, 0, 7, 0, 7, 1,
];

// Site 0 has two windows for every value: 3 to 9 and the value 7, 10 to 20 and the values 1 to 4.
const TWO_WINDOWS: [u8; 33] = [
    0x10, 0, 0, 0, 255, 255, 0, 0x11, 0, 0, 0, 3, 0, 0, 0, 9, 0, 7, 0, 7, 0x11, 0, 0, 0, 10, 0, 0,
    0, 20, 0, 1, 0, 4,
];

// A sheet that is refused: its row says nothing.
const REFUSED: [u8; 7] = [0x10, 1, 0, 0, 0, 9, 0];

// All that a host says of a call, on one line.
// Kept: site and value apart. Each of the questions to the host, whose trait is public, takes them so.
fn show<H: Host>(rt: &HostRuntime, name: &str, host: &H, site: u8, value: u16) -> io::Result<()> {
    let known = host.knows(site);
    let count = host.window_count(site, value);
    let silent = host.silent(site, value);
    print!(rt; "{name} {site} of {value}: known {known}, silent {silent}, windows {count}")?;
    for number in 0..5usize {
        match (
            host.ticks(site, value, number),
            host.values(site, value, number),
        ) {
            (Some((earliest, latest)), Some((lowest, highest))) => print!(rt;
                " [{earliest} {latest}, {lowest} {highest}]"
            )?,
            (None, None) => print!(rt; " -")?,
            _ => print!(rt; " half")?,
        }
    }
    println!(rt; "")
}

fn local(rt: &HostRuntime) -> io::Result<()> {
    for (site, value) in [
        (0, 5),
        (0, 65535),
        (1, 0),
        (1, 1),
        (1, 65535),
        (2, 0),
        (2, 9),
        (3, 0),
        (3, 65535),
        (4, 0),
        (31, 1),
        (255, 1),
    ] {
        show(rt, "local", &Local, site, value)?;
    }
    Ok(())
}

fn sheet(rt: &HostRuntime) -> io::Result<()> {
    let host = Sheet::new(&OVERLAP);
    for (site, value) in [
        (1, 0),
        (1, 4),
        (1, 5),
        (1, 9),
        (1, 10),
        (1, 20),
        (1, 21),
        (1, 65535),
        (27, 7),
        (27, 8),
        (0, 0),
        (28, 0),
        (31, 0),
        (255, 7),
    ] {
        show(rt, "sheet", &host, site, value)?;
    }
    show(rt, "refused", &Sheet::new(&REFUSED), 1, 0)?;
    show(rt, "empty", &Sheet::new(&[]), 1, 0)
}

fn pairs(rt: &HostRuntime) -> io::Result<()> {
    let rows = Sheet::new(&OVERLAP);
    let host = Pair {
        first: Local,
        second: rows,
        split: 4,
    };
    for (site, value) in [(3, 8), (4, 8), (5, 8), (31, 7), (32, 7)] {
        show(rt, "split 4", &host, site, value)?;
    }
    for (split, site) in [
        (0, 0),
        (0, 3),
        (0, 4),
        (255, 3),
        (255, 4),
        (255, 254),
        (255, 255),
    ] {
        let host = Pair {
            first: rows,
            second: Local,
            split,
        };
        println!(rt; "split {split}")?;
        show(rt, "  pair", &host, site, 7)?;
    }
    Ok(())
}

// The report on a call, for a controller with a sheet.
fn report(rt: &HostRuntime, sheet: &[u8], site: u8, value: u16) -> io::Result<()> {
    let report = replies_report(rt.alloc(), sheet, site, value)?;
    print!(rt; "{report}")
}

fn reports(rt: &HostRuntime) -> io::Result<()> {
    for (site, value) in [(3, 25), (5, 3), (5, 9), (5, 15), (5, 30), (9, 1)] {
        report(rt, &OVERLAP, site, value)?;
    }
    report(rt, &TWO_WINDOWS, 4, 0)?;
    report(rt, &REFUSED, 5, 0)
}

fn main(rt: HostRuntime) -> io::Result<()> {
    local(&rt)?;
    sheet(&rt)?;
    pairs(&rt)?;
    reports(&rt)
}
