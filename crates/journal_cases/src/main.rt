// Reports of scripts: played over files and sheets, accepted and refused, with and without a line at fault.
#![tactic(auto)]

use journals::journal::run_report;

// A sheet of two sites. Site 4 of the controller replies to 0 to 9 at an age of 2 to 4 ticks with 1 or 2, and site 5 to anything at an
// age of up to 3 ticks, or never.
const ROWS: [u8; 40] = [
    0x10, 0, 0, 0, 0, 9, 0, 0x11, 0, 0, 0, 2, 0, 0, 0, 4, 0, 1, 0, 2, 0x10, 1, 0, 0, 255, 255, 1,
    0x11, 0, 0, 0, 0, 0, 0, 0, 3, 0, 0, 255, 255,
];

// A sheet that ends inside a row.
const CUT: [u8; 3] = [0x10, 0, 0];

// No row.
const NO_ROWS: [u8; 0] = [];

// The call of let with 5.
const LET_5: [u8; 6] = [0, 1, 0, 0, 0, 5];

// The first of the replies of both sites of the sheet, called with 5, which is published.
const BOTH: [u8; 19] = [0, 5, 0, 1, 0, 1, 0, 0, 3, 1, 4, 0, 0, 5, 1, 5, 0, 0, 5];

// The same, where the second site is called with a variable that is free.
const FREE: [u8; 19] = [0, 5, 0, 1, 0, 1, 0, 0, 3, 1, 4, 0, 0, 5, 1, 5, 1, 0, 0];

// The call of the second site.
const SECOND: [u8; 6] = [0, 1, 5, 0, 0, 5];

// A file that ends inside a form.
const CUT_FILE: [u8; 5] = [0, 1, 0, 0, 0];

// A definition that calls itself, and a goal that calls it.
const ENDLESS: [u8; 14] = [1, 0, 0, 5, 2, 0, 0, 0, 0, 2, 0, 0, 0, 0];

// A script that is played over a file and a sheet, and what it shows.
#[derive(Clone, Copy)]
struct Case {
    name: &'static str,
    file: &'static [u8],
    sheet: &'static [u8],
    script: &'static str,
}

// The cases.
const CASES: [Case; 17] = [
    Case {
        name: "no line",
        file: &LET_5,
        sheet: &NO_ROWS,
        script: "",
    },
    Case {
        name: "comments and empty lines alone",
        file: &LET_5,
        sheet: &NO_ROWS,
        script: "# nothing\n\n   \n",
    },
    Case {
        name: "a reply outside its window, and one within",
        file: &LET_5,
        sheet: &NO_ROWS,
        script: "go 0\nanswer 1 6\nanswer 1 5\n",
    },
    Case {
        name: "a sheet that is refused",
        file: &LET_5,
        sheet: &CUT,
        script: "go 0\n",
    },
    Case {
        name: "a file that is refused",
        file: &FREE,
        sheet: &ROWS,
        script: "go 0\n",
    },
    Case {
        name: "both refused",
        file: &FREE,
        sheet: &CUT,
        script: "oops\n",
    },
    Case {
        name: "a file that is refused and a line at fault",
        file: &CUT_FILE,
        sheet: &NO_ROWS,
        script: "oops\n",
    },
    Case {
        name: "the first line at fault",
        file: &LET_5,
        sheet: &NO_ROWS,
        script: "start\ngo 0\n",
    },
    Case {
        name: "the third line at fault",
        file: &LET_5,
        sheet: &NO_ROWS,
        script: "go 0\n# now\nanswer 1\nanswer 1 5\n",
    },
    Case {
        name: "two lines at fault",
        file: &LET_5,
        sheet: &NO_ROWS,
        script: "go 0\ngo x\nwait y\n",
    },
    Case {
        name: "standing tickets",
        file: &BOTH,
        sheet: &ROWS,
        script: "go 0\nwait 1\ngo 0\nwait 1\n",
    },
    Case {
        name: "one answered, one withdrawn",
        file: &BOTH,
        sheet: &ROWS,
        script: "go 0\ngo 0\nwait 2\nanswer 1 2\nanswer 2 9\ngo 0\nanswer 3 2\n",
    },
    Case {
        name: "a lapse",
        file: &SECOND,
        sheet: &ROWS,
        script: "go 0\nwait 3\nwait 1\nanswer 1 0\n",
    },
    Case {
        name: "a wait over due calls, and over a reply",
        file: &BOTH,
        sheet: &ROWS,
        script: "wait 1\ngo 0\ngo 0\nwait 5\nwait 4294967295\n",
    },
    Case {
        name: "no due call",
        file: &LET_5,
        sheet: &NO_ROWS,
        script: "go 1\ngo 4294967295\ngo 0\ngo 0\n",
    },
    Case {
        name: "inner steps alone",
        file: &ENDLESS,
        sheet: &NO_ROWS,
        script: "go 0\ngo 0\ngo 0\n",
    },
    Case {
        name: "the clock's end",
        file: &LET_5,
        sheet: &NO_ROWS,
        script: "go 0\nanswer 1 5\nwait 4294967294\nwait 1\n",
    },
];

// The report of a case, and whether it is accepted.
fn show(rt: &HostRuntime, case: Case) -> anyhow::Result<()> {
    let Case {
        name,
        file,
        sheet,
        script,
    } = case;
    let report = run_report(rt.alloc(), file, sheet, script)?;
    let accepted = report.accepted;
    print!(rt; "== {name}\n{report}")?;
    println!(rt; "accepted: {accepted}\n")?;
    Ok(())
}

fn main(rt: HostRuntime) -> anyhow::Result<()> {
    for case in CASES {
        show(&rt, case)?;
    }
    Ok(())
}
