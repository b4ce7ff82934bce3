// Judges sheets that show each rule of the format and each fault, at the edges too, and prints what comes of each.
#![tactic(auto)]

use reports::sheet::sheet_report;
use sheets::rows::check_sheet;
use std::alloc::{AllocError, Global};
use std::io;

// Kept: here and below, the cases write what they give by hand, and not by the code that they try.
const NO_END: u32 = 4_294_967_295;

fn row(site: u8, first: u16, last: u16, silence: u8) -> [u8; 7] {
    let [f0, f1] = first.to_be_bytes();
    let [l0, l1] = last.to_be_bytes();
    [0x10, site, f0, f1, l0, l1, silence]
}

fn window(earliest: u32, latest: u32, lowest: u16, highest: u16) -> [u8; 13] {
    let [e0, e1, e2, e3] = earliest.to_be_bytes();
    let [l0, l1, l2, l3] = latest.to_be_bytes();
    let [a0, a1] = lowest.to_be_bytes();
    let [b0, b1] = highest.to_be_bytes();
    [0x11, e0, e1, e2, e3, l0, l1, l2, l3, a0, a1, b0, b1]
}

// Some rows, each with some windows.
fn many(heap: Global, rows: usize, windows: usize) -> Result<Vec<u8>, AllocError> {
    let windows = window(4_294_967_294, NO_END, 65535, 65535).repeat(heap, windows)?;
    let whole = [row(27, 0, 65535, 0).as_slice(), windows.as_slice()].concat(heap)?;
    whole.as_slice().repeat(heap, rows)
}

// What comes of a sheet that is given in parts.
// Kept: `file_cases` prints such a line of a file. One function for both would need a crate of its own for a match of two arms.
fn show(rt: &HostRuntime, name: &str, parts: &[&[u8]]) -> io::Result<()> {
    let bytes = parts.concat(rt.alloc())?;
    let length = bytes.len();
    match check_sheet(bytes.as_slice()) {
        Ok(()) => println!(rt; "{name} ({length} bytes): accepted"),
        Err(fault) => println!(rt; "{name} ({length} bytes): {fault}"),
    }
}

fn counts(rt: &HostRuntime) -> io::Result<()> {
    let heap = rt.alloc();
    show(rt, "empty", &[])?;
    show(rt, "one silent row", &[&row(0, 0, 0, 1)])?;
    for (name, rows, windows) in [
        ("64 rows of 4 windows", 64, 4),
        ("65 rows", 65, 1),
        ("4 windows", 1, 4),
        ("5 windows", 1, 5),
    ] {
        show(rt, name, &[many(heap, rows, windows)?.as_slice()])?;
    }
    let longest = many(heap, 64, 4)?;
    show(
        rt,
        "longest, and bytes up to 4096",
        &[longest.as_slice(), &[0; 320]],
    )?;
    show(
        rt,
        "longest, and bytes up to 4097",
        &[longest.as_slice(), &[0; 321]],
    )
}

fn rows(rt: &HostRuntime) -> io::Result<()> {
    for (name, site, first, last, silence) in [
        ("row of site 27", 27, 0, 0, 1),
        ("row of site 28", 28, 0, 0, 1),
        ("row from 5 to 5", 1, 5, 5, 1),
        ("row from 256 to 255", 1, 256, 255, 2),
        ("row of silence 2", 1, 0, 0, 2),
    ] {
        show(rt, name, &[&row(site, first, last, silence)])?;
    }
    Ok(())
}

fn windows(rt: &HostRuntime) -> io::Result<()> {
    let open = row(2, 0, 9, 0);
    for (name, earliest, latest, lowest, highest) in [
        ("earliest 4294967294", 4_294_967_294, NO_END, 0, 0),
        ("earliest 4294967295", NO_END, NO_END, 0, 0),
        ("latest below earliest", 256, 255, 0, 0),
        ("latest equals earliest", 255, 255, 0, 0),
        ("highest below lowest", 0, 0, 256, 255),
    ] {
        show(
            rt,
            name,
            &[&open, &window(earliest, latest, lowest, highest)],
        )?;
    }
    Ok(())
}

fn places(rt: &HostRuntime) -> io::Result<()> {
    let open = row(2, 0, 9, 0);
    let bad = window(2, 1, 0, 0);
    show(rt, "window before any row", &[&window(0, 0, 0, 0)])?;
    show(rt, "bad window before any row", &[&[0x11]])?;
    show(rt, "row with nothing, at the end", &[&open])?;
    show(rt, "row with nothing, before a row", &[&open, &open])?;
    show(rt, "row with nothing, before a cut row", &[&open, &[0x10]])?;
    show(
        rt,
        "row with nothing, before an unknown command",
        &[&open, &[0x12]],
    )?;
    show(rt, "row with nothing, before a bad window", &[&open, &bad])?;
    show(rt, "command of a form", &[&[0x03]])
}

// Every cut of a row and of a window.
fn cuts(rt: &HostRuntime) -> io::Result<()> {
    let whole = [row(2, 0, 9, 1).as_slice(), &window(0, 7, 0, 0)].concat(rt.alloc())?;
    let bytes = whole.as_slice();
    for end in 1..bytes.len() {
        show(rt, "cut", &[&bytes[..end]])?;
    }
    Ok(())
}

// A range is judged before what follows it is cut.
fn early(rt: &HostRuntime) -> io::Result<()> {
    let open = row(2, 0, 9, 0);
    show(rt, "site 28, cut behind it", &[&[0x10, 28]])?;
    show(
        rt,
        "last below first, cut behind it",
        &[&[0x10, 0, 0, 5, 0, 4]],
    )?;
    show(
        rt,
        "earliest too late, cut behind it",
        &[&open, &[0x11, 0xff, 0xff, 0xff, 0xff]],
    )
}

// Whole reports, as the program prints them.
fn reports(rt: &HostRuntime) -> io::Result<()> {
    let heap = rt.alloc();
    let good = [
        row(0, 0, 65535, 1).as_slice(),
        &window(0, NO_END, 1, 1),
        &row(1, 3, 3, 0),
        &window(5, 20, 0, 4),
        &window(6, 6, 9, 9),
    ]
    .concat(heap)?;
    let silent = row(27, 0, 9, 1);
    let second_row = [silent, row(28, 0, 0, 1)].concat(heap)?;
    let late = [silent.as_slice(), &window(NO_END, NO_END, 0, 0)].concat(heap)?;
    let latest = [silent.as_slice(), &window(6, 5, 0, 0)].concat(heap)?;
    let highest = [silent.as_slice(), &window(5, 5, 1, 0)].concat(heap)?;
    let long = [0].repeat(heap, 4097)?;
    for bytes in [
        good.as_slice(),
        &silent,
        &row(28, 0, 0, 1),
        &row(1, 0, 0, 2),
        &[0x10, 1, 0],
        &[],
        second_row.as_slice(),
        &[0x12],
        &row(1, 5, 4, 1),
        late.as_slice(),
        latest.as_slice(),
        highest.as_slice(),
        &window(0, 0, 0, 0),
        &row(1, 0, 0, 0),
        many(heap, 65, 1)?.as_slice(),
        many(heap, 1, 5)?.as_slice(),
        long.as_slice(),
    ] {
        let report = sheet_report(heap, bytes)?;
        print!(rt; "----\n{report}")?;
    }
    Ok(())
}

fn main(rt: HostRuntime) -> io::Result<()> {
    counts(&rt)?;
    rows(&rt)?;
    windows(&rt)?;
    places(&rt)?;
    cuts(&rt)?;
    early(&rt)?;
    reports(&rt)
}
