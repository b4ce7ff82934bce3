// Judges parameter files that show each rule of the format and each fault, at the edges too, and prints what comes of each.
#![tactic(auto)]

use files::check::check_file;
use files::contents::read_file;
use formats::fault::Fault;
use forms::ends::form_end;
use forms::exact::expression_form;
use hosts::host::Host;
use hosts::local::Local;
use hosts::pair::Pair;
use reports::file::{file_report, file_report_with_sheet};
use std::alloc::{AllocError, Global};
use std::{io, iter};
use verdicts::reason::Reason;

const STOP: [u8; 1] = [0];

// The local sites twice: 0 to 3, and 4 to 7.
const TWICE: Pair<Local, Local> = Pair {
    first: Local,
    second: Local,
    split: 4,
};

// Let with a mark, 0 for a value and 1 for a variable, and a number.
// Kept: here and below, the cases write their bytes by hand, and not by the code that they try.
fn let_with(mark: u8, number: u16) -> [u8; 5] {
    let [high, low] = number.to_be_bytes();
    [1, 0, mark, high, low]
}

fn value(number: u16) -> [u8; 5] {
    let_with(0, number)
}

fn variable(number: u16) -> [u8; 5] {
    let_with(1, number)
}

// What comes of a file.
// Kept: `sheet_cases` prints such a line of a sheet. One function for both would need a crate of its own for a match of two arms.
fn show<H: Host>(rt: &HostRuntime, host: &H, name: &str, bytes: &[u8]) -> io::Result<()> {
    let length = bytes.len();
    match check_file(host, bytes) {
        Ok(()) => println!(rt; "{name} ({length} bytes): accepted"),
        Err(fault) => println!(rt; "{name} ({length} bytes): {fault}"),
    }
}

// Files over the local sites.
fn files(rt: &HostRuntime, files: &[(&str, &[u8])]) -> io::Result<()> {
    for (name, bytes) in files {
        show(rt, &Local, name, bytes)?;
    }
    Ok(())
}

// A file without definitions, over the local sites, its goal given in parts.
fn goal(rt: &HostRuntime, name: &str, parts: &[&[u8]]) -> io::Result<()> {
    let heap = rt.alloc();
    let form = parts.concat(heap)?;
    let file = [[0].as_slice(), form.as_slice()].concat(heap)?;
    show(rt, &Local, name, file.as_slice())
}

fn goals(rt: &HostRuntime, goals: &[(&str, &[u8])]) -> io::Result<()> {
    for (name, form) in goals {
        goal(rt, name, &[form])?;
    }
    Ok(())
}

fn counts(rt: &HostRuntime) -> io::Result<()> {
    files(
        rt,
        &[("empty", &[]), ("a count alone", &[0]), ("stop", &[0, 0])],
    )?;
    for (name, count) in [("16 definitions", 16), ("17 definitions", 17)] {
        let definitions = [31, 0, 1, 0].repeat(rt.alloc(), usize::from(count))?;
        let file = [[count].as_slice(), definitions.as_slice(), &STOP].concat(rt.alloc())?;
        show(rt, &Local, name, file.as_slice())?;
    }
    files(rt, &[("count 17, cut behind it", &[17])])
}

fn commands(rt: &HostRuntime) -> io::Result<()> {
    goals(
        rt,
        &[
            ("a pending call", &[6, 0, 0, 0, 1, 0, 0, 0, 0, 0, 0, 0]),
            ("command 7", &[7]),
            ("a row of a sheet", &[0x10, 0, 0, 0, 0, 0, 1]),
            ("a window of a sheet", &[0x11]),
            ("command 255", &[255]),
            ("command 6 in the left part", &[3, 6, 0]),
            ("command 6 in the right part", &[3, 0, 6]),
            ("a byte behind the form", &[0, 0]),
            ("a byte behind two parts", &[3, 0, 0, 255]),
        ],
    )
}

fn calls(rt: &HostRuntime) -> io::Result<()> {
    goals(
        rt,
        &[
            ("site 3", &[1, 3, 0, 0, 0]),
            ("site 4", &[1, 4, 0, 0, 0]),
            ("site 31", &[1, 31, 0, 0, 0]),
            ("site 32", &[1, 32, 0, 0, 0]),
            ("site 4, cut behind it", &[1, 4]),
            ("site 32, cut behind it", &[1, 32]),
            ("mark 2", &[1, 0, 2, 0, 0]),
            ("mark 2, cut behind it", &[1, 0, 2]),
            ("value 65535", &value(65535)),
            ("variable 3 free", &variable(3)),
            ("variable 32", &variable(32)),
            ("variable 256", &variable(256)),
            ("definition 0 of none", &[2, 0, 0, 0, 0]),
            ("definition 255, cut behind it", &[2, 255]),
            ("definition 0 of none, with mark 2", &[2, 0, 2, 0, 0]),
        ],
    )
}

fn pairs(rt: &HostRuntime) -> io::Result<()> {
    for (name, site) in [
        ("pair, site 7", 7),
        ("pair, site 8", 8),
        ("pair, site 32", 32),
    ] {
        show(rt, &TWICE, name, &[0, 1, site, 0, 0, 0])?;
    }
    Ok(())
}

fn scopes(rt: &HostRuntime) -> io::Result<()> {
    goal(
        rt,
        "sequential, bound on the right",
        &[&[4, 5], &STOP, &variable(5)],
    )?;
    goal(
        rt,
        "sequential, not on the left",
        &[&[4, 5], &variable(5), &STOP],
    )?;
    goal(
        rt,
        "pruning, bound on the left",
        &[&[5, 5], &variable(5), &STOP],
    )?;
    goal(
        rt,
        "pruning, not on the right",
        &[&[5, 5], &STOP, &variable(5)],
    )?;
    goal(rt, "parallel binds nothing", &[&[3], &variable(5), &STOP])?;
    goal(rt, "sequential with 31", &[&[4, 31], &STOP, &variable(31)])?;
    goal(rt, "sequential with 32", &[&[4, 32], &STOP, &variable(32)])?;
    goal(rt, "pruning with 32, cut behind it", &[&[5, 32]])?;
    goal(rt, "another variable", &[&[4, 5], &STOP, &variable(4)])
}

// A variable that is bound more than once, or elsewhere.
fn nested_scopes(rt: &HostRuntime) -> io::Result<()> {
    let x = &variable(5);
    let y = &variable(6);
    goal(rt, "bound around", &[&[4, 5], &STOP, &[5, 6], x, x])?;
    goal(rt, "bound twice", &[&[4, 5], &STOP, &[5, 5], x, x])?;
    goal(
        rt,
        "bound twice, once left",
        &[&[5, 5], &[5, 5], x, &STOP, x],
    )?;
    goal(rt, "no more bound behind", &[&[3, 4, 5], &STOP, x, x])?;
    goal(rt, "no more bound below", &[&[5, 5], &[3], x, y, &STOP])
}

fn definitions(rt: &HostRuntime) -> io::Result<()> {
    files(
        rt,
        &[
            ("formal 31", &[1, 31, 0, 1, 0, 0]),
            ("formal 32", &[1, 32, 0, 1, 0, 0]),
            ("formal 32, cut behind it", &[1, 32]),
            ("no formal", &[1]),
            ("no length", &[1, 0]),
            ("half a length", &[1, 0, 0]),
            ("length past the end of the file", &[1, 0, 0, 3, 255, 0]),
            ("length up to the end of the file", &[1, 0, 0, 1, 0]),
            ("length 0", &[1, 0, 0, 0, 0]),
        ],
    )
}

// The end that a definition's form may pass.
fn definition_forms(rt: &HostRuntime) -> io::Result<()> {
    files(
        rt,
        &[
            (
                "form past the end of its definition",
                &[1, 0, 0, 2, 3, 0, 0, 0],
            ),
            (
                "operand past the end of its definition",
                &[1, 0, 0, 3, 1, 0, 0, 0, 0],
            ),
            (
                "form short of the end of its definition",
                &[1, 0, 0, 2, 0, 0, 0],
            ),
            ("unknown command in a definition", &[1, 0, 0, 1, 6, 0]),
            ("formal in its definition", &[1, 7, 0, 5, 1, 0, 1, 0, 7, 0]),
            (
                "other variable in a definition",
                &[1, 7, 0, 5, 1, 0, 1, 0, 6, 0],
            ),
            ("formal in the goal", &[1, 7, 0, 1, 0, 1, 0, 1, 0, 7]),
        ],
    )
}

// What one definition is to another.
fn definition_scopes(rt: &HostRuntime) -> io::Result<()> {
    files(
        rt,
        &[
            (
                "formal of the definition before",
                &[2, 7, 0, 1, 0, 8, 0, 5, 1, 0, 1, 0, 7, 0],
            ),
            (
                "definition 1 called from definition 0",
                &[2, 0, 0, 5, 2, 1, 0, 0, 0, 0, 0, 1, 0, 0],
            ),
            (
                "definition 2 of 2",
                &[2, 0, 0, 1, 0, 0, 0, 5, 2, 2, 0, 0, 0, 0],
            ),
            ("second definition cut short", &[2, 0, 0, 1, 0, 0, 0, 5, 2]),
            ("no goal", &[1, 0, 0, 1, 0]),
        ],
    )
}

// Every cut of a file.
fn cuts(rt: &HostRuntime) -> io::Result<()> {
    let whole = sample(rt.alloc())?;
    let bytes = whole.as_slice();
    for end in 0..bytes.len() {
        show(rt, &Local, "cut", &bytes[..end])?;
    }
    show(rt, &Local, "whole", bytes)
}

// A file with each command.
fn sample(heap: Global) -> Result<Vec<u8>, AllocError> {
    [
        [1, 9, 0, 12, 5, 3].as_slice(),
        &variable(3),
        &variable(9),
        &[4, 2],
        &value(7),
        &[3, 2, 0, 1, 0, 2],
        &STOP,
    ]
    .concat(heap)
}

// Goals that nest as deep as 4,096 bytes allow, or one byte too deep. Each is a stretch of bytes so many times, and then so
// many stops.
fn nesting(rt: &HostRuntime) -> io::Result<()> {
    let heap = rt.alloc();
    let table: [(&str, &[u8], usize, usize); 9] = [
        ("4,095 parallels without parts", &[3], 4095, 0),
        ("4,096 parallels without parts", &[3], 4096, 0),
        ("2,047 parallels, to the left", &[3], 2047, 2048),
        ("2,047 parallels, to the right", &[3, 0], 2047, 1),
        ("1,365 prunings, to the left", &[5, 31], 1365, 1365),
        ("1,364 prunings, to the left", &[5, 31], 1364, 1365),
        ("1,364 sequentials, to the right", &[4, 31, 0], 1364, 1),
        ("4,096 bytes, one too many", &[3], 2047, 2049),
        ("wide", &[3, 1, 0, 0, 1, 1], 682, 1),
    ];
    for (name, command, times, stops) in table {
        let commands = command.repeat(heap, times)?;
        let stops = STOP.repeat(heap, stops)?;
        goal(rt, name, &[commands.as_slice(), stops.as_slice()])?;
    }
    Ok(())
}

// Verdicts on many files: how many had each number, 0 if accepted and else the fault's; and one sum made of all their numbers
// and places, in order.
#[derive(Clone, Copy, Default)]
struct Tally {
    counts: [u32; 9],
    sum: u32,
}

impl Tally {
    fn add(&mut self, verdict: Result<(), Fault>) {
        let (number, place) = verdict
            .err()
            .map_or((0, 0), |fault| (fault.number(), fault.place()));
        if let Some(count) = self.counts.get_mut(usize::from(number)) {
            *count = count.wrapping_add(1);
        }
        for part in [u32::from(number), (place % 65536) as u32] {
            self.sum = self.sum.wrapping_mul(31).wrapping_add(part);
        }
    }

    fn show(&self, rt: &HostRuntime, name: &str) -> io::Result<()> {
        let sum = self.sum;
        println!(rt; "{name}, sum {sum}")?;
        for (number, count) in self.counts.iter().enumerate() {
            println!(rt; "  {number}: {count}")?;
        }
        Ok(())
    }
}

// Each byte of a file in turn replaced by each other.
// Kept: an index. The byte is replaced and put back while the whole file is judged, which no iterator over it allows.
fn damaged(rt: &HostRuntime) -> io::Result<()> {
    let mut file = sample(rt.alloc())?;
    let mut tally = Tally::default();
    for at in 0..file.len() {
        let kept = file[at];
        for byte in 0..=255 {
            file[at] = byte;
            tally.add(check_file(&Local, file.as_slice()));
        }
        file[at] = kept;
    }
    tally.show(rt, "damaged")
}

// A source of pseudo-random numbers. It holds the state that the next one is made of.
#[derive(Drop)]
struct Dice(u32);

impl Dice {
    // The next number, of two bytes.
    fn draw(&mut self) -> u32 {
        self.0 = self.0.wrapping_mul(1_664_525).wrapping_add(1_013_904_223);
        self.0 >> 16
    }

    // The next byte. One time in sixteen, about, it is any byte, and else a command of a file, 0 to 5.
    fn draw_byte(&mut self) -> u8 {
        let bound = if self.draw() % 16 == 0 { 256 } else { 6 };
        (self.draw() % bound) as u8
    }
}

// Files of pseudo-random bytes, most of them small.
fn random(rt: &HostRuntime) -> io::Result<()> {
    let mut dice = Dice(7);
    let mut tally = Tally::default();
    for _ in 0..20000 {
        let length = (dice.draw() % 40) as usize;
        let file: Vec<u8> = iter::repeat_with(|| dice.draw_byte())
            .take(length)
            .collect(rt.alloc())?;
        tally.add(check_file(&TWICE, file.as_slice()));
    }
    tally.show(rt, "random")
}

// The contents of an accepted file.
fn contents(rt: &HostRuntime) -> io::Result<()> {
    let file = sample(rt.alloc())?;
    let Ok(contents) = read_file(&Local, file.as_slice()) else {
        return println!(rt; "refused");
    };
    let count = contents.definition_count();
    println!(rt; "{count} definitions")?;
    for number in 0..3 {
        match contents.definition(number) {
            Some(d) => {
                let formal = d.formal;
                let size = d.body.as_bytes().len();
                let free = d.body.is_free(formal);
                println!(rt; "definition {number}: formal {formal}, {size} bytes, free {free}")?;
            }
            None => println!(rt; "no definition {number}")?,
        }
    }
    let goal = contents.goal();
    let size = goal.as_bytes().len();
    let free = goal.is_free(2);
    println!(rt; "goal: {size} bytes, 2 free {free}")
}

fn form(rt: &HostRuntime, name: &str, bytes: &[u8]) -> io::Result<()> {
    let exact = expression_form(bytes).is_some();
    match form_end(bytes, 0) {
        Some(end) => println!(rt; "{name}: ends at {end}, an expression's {exact}"),
        None => println!(rt; "{name}: no form, an expression's {exact}"),
    }
}

fn forms(rt: &HostRuntime) -> io::Result<()> {
    let table: [(&str, &[u8]); 9] = [
        ("nothing", &[]),
        ("stop", &[0]),
        ("stop, and a byte", &[0, 0]),
        ("pending call", &[6, 0, 0, 0, 1, 2, 3, 4, 0, 0, 0, 9]),
        ("pending call cut short", &[6, 0, 0, 0, 1, 2, 3, 4, 0, 0, 0]),
        ("mark 2", &[1, 0, 2, 0, 0]),
        ("parallel", &[3, 4, 1, 0, 0, 2, 0, 1, 0, 1]),
        ("parallel with one part", &[3, 0]),
        ("command 7", &[7]),
    ];
    for (name, bytes) in table {
        form(rt, name, bytes)?;
    }
    Ok(())
}

// A sheet whose one row is of the controller's site 4, and one that is refused.
const SHEET: [u8; 7] = [0x10, 0, 0, 0, 255, 255, 1];

const REFUSED_SHEET: [u8; 2] = [0x10, 28];

// Whole reports, as the program prints them: of a file with every command, judged with each sheet.
fn reports(rt: &HostRuntime) -> io::Result<()> {
    let heap = rt.alloc();
    let every = [
        [1, 5, 0, 5].as_slice(),
        &variable(5),
        &[5, 7, 3, 1, 4, 0, 0, 9],
        &STOP,
        &[4, 2, 2, 0, 0, 1, 0],
        &variable(2),
    ]
    .concat(heap)?;
    let report = file_report_with_sheet(heap, every.as_slice(), &SHEET)?;
    print!(rt; "----\n{report}")?;
    let report = file_report_with_sheet(heap, every.as_slice(), &REFUSED_SHEET)?;
    print!(rt; "----\n{report}")
}

// The example of a door: the file that closes it, and the sheet of its sites.
const CLOSE: [u8; 67] = [
    1, 0, 0, 31, 5, 1, 1, 0, 1, 0, 1, 3, 1, 5, 1, 0, 0, 3, 1, 4, 0, 0, 0, 4, 2, 1, 3, 0, 1, 244, 1,
    0, 0, 0, 9, 4, 3, 1, 6, 0, 0, 0, 4, 4, 2, 0, 0, 0, 1, 3, 1, 0, 1, 0, 4, 4, 5, 1, 1, 1, 0, 4, 2,
    0, 0, 0, 0,
];

const DOOR: [u8; 126] = [
    16, 0, 0, 0, 255, 255, 1, 17, 0, 0, 0, 0, 255, 255, 255, 255, 0, 1, 0, 1, 16, 1, 0, 0, 0, 0, 0,
    17, 0, 0, 0, 200, 0, 0, 1, 94, 0, 0, 0, 0, 17, 0, 0, 0, 50, 0, 0, 1, 94, 0, 1, 0, 1, 16, 1, 0,
    1, 0, 1, 0, 17, 0, 0, 0, 250, 0, 0, 1, 144, 0, 0, 0, 0, 17, 0, 0, 0, 50, 0, 0, 1, 144, 0, 1, 0,
    1, 17, 0, 0, 1, 144, 255, 255, 255, 255, 0, 2, 0, 2, 16, 2, 0, 0, 0, 3, 0, 17, 0, 0, 0, 0, 0,
    0, 0, 5, 0, 0, 0, 0, 16, 3, 0, 0, 0, 1, 1,
];

// The whole report on the example, as the program prints it.
fn example_report(rt: &HostRuntime) -> io::Result<()> {
    let report = file_report_with_sheet(rt.alloc(), &CLOSE, &DOOR)?;
    print!(rt; "----\n{report}")
}

// The report on a file with each fault.
fn refused_reports(rt: &HostRuntime) -> io::Result<()> {
    let heap = rt.alloc();
    let long = STOP.repeat(heap, 4097)?;
    let refused: [&[u8]; 9] = [
        &[0, 1, 0],
        &[0, 3, 0, 6],
        &[17],
        &[0, 4, 32],
        &[0, 2, 0, 0, 0, 0],
        &[0, 1, 4, 0, 0, 0],
        &[0, 1, 0, 1, 0, 3],
        long.as_slice(),
        &[0, 0, 9],
    ];
    for bytes in refused {
        let report = file_report(heap, &Local, bytes)?;
        print!(rt; "----\n{report}")?;
    }
    Ok(())
}

// How long the report on a deep form is. From some depth on its lines are indented no further.
fn deep_report(rt: &HostRuntime) -> io::Result<()> {
    let heap = rt.alloc();
    let parallels = [3, 0].repeat(heap, 50)?;
    let deep = [[0].as_slice(), parallels.as_slice(), &STOP].concat(heap)?;
    let report = file_report(heap, &Local, deep.as_slice())?;
    let length = report.text.len();
    println!(rt; "----\n50 parallels, to the right: a report of {length} bytes")
}

fn main(rt: HostRuntime) -> io::Result<()> {
    counts(&rt)?;
    commands(&rt)?;
    calls(&rt)?;
    pairs(&rt)?;
    scopes(&rt)?;
    nested_scopes(&rt)?;
    definitions(&rt)?;
    definition_forms(&rt)?;
    definition_scopes(&rt)?;
    cuts(&rt)?;
    nesting(&rt)?;
    damaged(&rt)?;
    random(&rt)?;
    contents(&rt)?;
    forms(&rt)?;
    reports(&rt)?;
    example_report(&rt)?;
    refused_reports(&rt)?;
    deep_report(&rt)
}
