// Reads lines of a script, good and bad, writes calls as lines, and draws pictures.
#![tactic(auto)]

use pictures::lane::{Ending, Lane, Publication};
use pictures::picture::picture;
use pictures::scale::scale;
use runs::call::Call;
use scripts::line::{read_call, write_call};
use scripts::script::{BadLine, read_script};

// Good lines, blank ones and comments, and each fault at its edges.
const LINES: [&str; 53] = [
    "go 0",
    "go 4294967295",
    "go 4294967296",
    "go 99999999999999999999999999999999999999",
    "go 007",
    "go 00000000000000000000000000000000000001",
    "go",
    "go ",
    "go x",
    "go 1x",
    "go x1",
    "go +1",
    "go -1",
    "go 1.0",
    "go 1,0",
    "go 0x1",
    "go 1 2",
    "go 1 x",
    "go 1 # first",
    "go#1",
    "go1",
    "Go 1",
    "GO 1",
    "goo 1",
    "g 1",
    "answer 1 6",
    "answer 4294967295 65535",
    "answer 1 65536",
    "answer 1 4294967296",
    "answer 4294967296 1",
    "answer 1 0065535",
    "answer 1",
    "answer",
    "answer x",
    "answer x y",
    "answer 1 y",
    "answer 1 2 3",
    "answers 1 2",
    "wait 7",
    "wait 4294967295",
    "wait 4294967296",
    "wait",
    "wait 7 7",
    "  go   3  ",
    "\tanswer\t2\t9\t",
    "wait 5\r",
    "",
    "   ",
    " \t\r",
    "# a comment",
    "   #go 1",
    "#",
    "é 1",
];

// Scripts: none of a line, with and without an end of the last line, with blank lines and comments, and with bad lines.
const SCRIPTS: [&str; 9] = [
    "",
    "\n",
    "go 0",
    "go 0\n",
    "# a door\n\ngo 0\n  answer 1 5 \nwait 7\n",
    "go 0\r\nwait 1\r\n",
    "go 0\nanswer 1\nwait 7",
    "oops",
    "go 0\nwait 1\n\nwait 4294967296",
];

// Shows the lines, the calls written as lines, the scales and the pictures.
fn main(rt: HostRuntime) -> anyhow::Result<()> {
    for line in LINES {
        show_line(&rt, line)?;
    }
    show_written(&rt)?;
    for text in SCRIPTS {
        show_script(&rt, text)?;
    }
    show_scales(&rt)?;
    show_pictures(&rt)
}

// A line, and what it says.
fn show_line(rt: &HostRuntime, line: &str) -> anyhow::Result<()> {
    match read_call(line) {
        Ok(Some(call)) => println!(rt; "{line:?}: {call:?}")?,
        Ok(None) => println!(rt; "{line:?}: nothing")?,
        Err(fault) => println!(rt; "{line:?}: {fault}")?,
    }
    Ok(())
}

// Calls as lines, read again.
fn show_written(rt: &HostRuntime) -> anyhow::Result<()> {
    for call in [
        Call::Go(0),
        Call::Go(4294967295),
        Call::Answer(1, 6),
        Call::Answer(4294967295, 65535),
        Call::Wait(7),
        Call::Wait(1000000),
    ] {
        let line = write_call(rt.alloc(), call)?;
        println!(rt; "{call:?} is written {line}")?;
        show_line(rt, line.as_str())?;
    }
    Ok(())
}

// A script, and its calls up to its first bad line.
fn show_script(rt: &HostRuntime, text: &str) -> anyhow::Result<()> {
    let script = read_script(rt.alloc(), text)?;
    print!(rt; "{text:?}:")?;
    for call in script.calls.iter() {
        print!(rt; " {call}.")?;
    }
    match script.bad {
        Some(BadLine { line, fault }) => println!(rt; " line {line}: {fault}")?,
        None => println!(rt; " no bad line")?,
    }
    Ok(())
}

// The scale at the edges.
fn show_scales(rt: &HostRuntime) -> anyhow::Result<()> {
    for clock in [
        0, 59, 60, 119, 120, 299, 300, 599, 600, 2999999999, 3000000000, 4294967295,
    ] {
        let ticks = scale(clock);
        println!(rt; "clock {clock}: one column for {ticks}")?;
    }
    Ok(())
}

// Pictures of nothing, of calls, of publications and of both.
fn show_pictures(rt: &HostRuntime) -> anyhow::Result<()> {
    show_picture(rt, &[], &[], 12)?;
    let lanes = [
        lane(1, 4, 1, 0, Ending::Answered { value: 0, at: 35 }),
        lane(2, 5, 0, 0, Ending::Lapsed { at: 3 }),
        lane(3, 3, 80, 3, Ending::Withdrawn { at: 35 }),
        lane(4, 27, 65535, 35, Ending::Standing),
        lane(5, 4, 2, 35, Ending::Answered { value: 9, at: 35 }),
    ];
    let publications = [publication(35, 7), publication(35, 8), publication(40, 2)];
    show_picture(rt, &lanes, &publications, 41)?;
    show_picture(rt, &lanes, &[], 118)?;
    show_picture(rt, &[], &publications, 41)?;
    show_counts(rt)?;
    show_long(rt)
}

// Columns with one publication, with nine and with ten, up to a last column that has its tick above it.
fn show_counts(rt: &HostRuntime) -> anyhow::Result<()> {
    let mut publications = [publication(40, 3); 20];
    publications[0] = publication(0, 1);
    for nine in &mut publications[1..10] {
        *nine = publication(20, 2);
    }
    show_picture(rt, &[], &publications, 40)
}

// A run over the whole range of the clock, and with more than nine publications in one column.
fn show_long(rt: &HostRuntime) -> anyhow::Result<()> {
    let answered = Ending::Answered {
        value: 65535,
        at: 3000000000,
    };
    let lanes = [
        lane(4294967295, 27, 65535, 0, Ending::Standing),
        lane(9, 0, 0, 1000000000, Ending::Withdrawn { at: 1000000001 }),
        lane(10, 1, 0, 2000000000, answered),
    ];
    let publications = [publication(5, 1); 12];
    show_picture(rt, &lanes, &publications, 4294967294)
}

// A call to draw.
// Kept: this and the next. With them, each call and publication of the cases is a line, as in a table.
fn lane(ticket: u32, site: u8, value: u16, from: u32, end: Ending) -> Lane {
    Lane {
        ticket,
        site,
        value,
        from,
        end,
    }
}

// A publication to draw.
fn publication(clock: u32, value: u16) -> Publication {
    Publication { clock, value }
}

// A picture, after an empty line.
fn show_picture(
    rt: &HostRuntime,
    lanes: &[Lane],
    publications: &[Publication],
    clock: u32,
) -> anyhow::Result<()> {
    let text = picture(rt.alloc(), lanes, publications, clock)?;
    print!(rt; "\n{text}")?;
    Ok(())
}
