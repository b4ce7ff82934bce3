// Judges and plays small files over small sheets in memory of several sizes, and prints all that this memory then holds.
#![tactic(auto)]

use controllers::check::check;
use controllers::event::Event;
use controllers::judgement::Judgement;
use controllers::order::Order;
use controllers::play::play;
use controllers::totals::Totals;
use controllers::verdict::Verdict;
use std::io;

// Site 0 replies to anything at an age of 2 to 4 ticks with 1 or 2.
const SHEET: [u8; 20] = [
    0x10, 0, 0, 0, 255, 255, 0, 0x11, 0, 0, 0, 2, 0, 0, 0, 4, 0, 1, 0, 2,
];

// The call of let with 5.
const LET_5: [u8; 6] = [0, 1, 0, 0, 0, 5];

// The call of site 4, the first of a sheet, with 7.
const SITE_4: [u8; 6] = [0, 1, 4, 0, 0, 7];

// The first reply of site 4 and of a timer of 3 ticks, given to let; and beside it if of 0.
const RACE: [u8; 25] = [
    0, 3, 5, 1, 1, 0, 1, 0, 1, 3, 1, 4, 0, 0, 7, 1, 3, 0, 0, 3, 1, 1, 0, 0, 0,
];

// What lies in the memory before.
const NO_VERDICT: Verdict = Verdict {
    number: 99,
    place: 99,
};

const NO_EVENT: Event = Event {
    clock: 99,
    kind: 99,
    number: 99,
    value: 99,
};

const NO_TOTALS: Totals = Totals {
    called: 99,
    answered: 99,
    withdrawn: 99,
    lapsed: 99,
    standing: 99,
};

fn order(kind: u32, number: u32, value: u32) -> Order {
    Order {
        kind,
        number,
        value,
        outcome: NO_VERDICT,
    }
}

fn go(number: u32) -> Order {
    order(0, number, 0)
}

fn answer(ticket: u32, value: u32) -> Order {
    order(1, ticket, value)
}

fn wait(ticks: u32) -> Order {
    order(2, ticks, 0)
}

fn print_judgement(rt: &HostRuntime, name: &str, judgement: Judgement) -> io::Result<()> {
    let Verdict { number, place } = judgement.sheet;
    print!(rt; "{name}: sheet {number} at {place}, ")?;
    let Verdict { number, place } = judgement.file;
    println!(rt; "file {number} at {place}")
}

fn print_order(rt: &HostRuntime, order: Order) -> io::Result<()> {
    let Order {
        kind,
        number,
        value,
        outcome,
    } = order;
    let Verdict {
        number: refusal,
        place,
    } = outcome;
    println!(rt; "  {kind} {number} {value}: {refusal} at {place}")
}

// Plays a file, and prints what was judged, met and written.
fn play_in(
    rt: &HostRuntime,
    name: &str,
    file: &[u8],
    sheet: &[u8],
    orders: &mut [Order],
    form: &mut [u8],
    events: &mut [Event],
    totals: &mut [Totals],
) -> io::Result<()> {
    let (judgement, state) = play(file, sheet, orders, form, events, totals);
    print_judgement(rt, name, judgement)?;
    for order in orders.iter() {
        print_order(rt, *order)?;
    }
    println!(rt; "  {state:?}")?;
    print!(rt; "  form")?;
    for byte in form.iter() {
        print!(rt; " {byte:02x}")?;
    }
    println!(rt; "")?;
    for event in events.iter() {
        let Event {
            clock,
            kind,
            number,
            value,
        } = *event;
        println!(rt; "  event {clock} {kind} {number} {value}")?;
    }
    for (site, line) in totals
        .iter()
        .enumerate()
        .filter(|(_, line)| line.called > 0)
    {
        println!(rt; "  site {site} {line:?}")?;
    }
    Ok(())
}

fn judgements(rt: &HostRuntime) -> io::Result<()> {
    let long = [0; 4097];
    print_judgement(rt, "both accepted", check(&SITE_4, &SHEET))?;
    print_judgement(rt, "no sites", check(&SITE_4, &[]))?;
    print_judgement(rt, "sheet cut short", check(&SITE_4, &SHEET[..19]))?;
    print_judgement(rt, "file cut short", check(&SITE_4[..5], &SHEET))?;
    print_judgement(rt, "local sites alone", check(&LET_5, &SHEET[..19]))?;
    print_judgement(rt, "nothing", check(&[], &[]))?;
    print_judgement(rt, "both too long", check(&long, &long))?;
    print_judgement(
        rt,
        "both as long as may be",
        check(&long[..4096], &long[..4096]),
    )
}

fn replies(rt: &HostRuntime) -> io::Result<()> {
    let mut orders = [
        answer(1, 5),
        wait(1),
        wait(0),
        go(1),
        go(0),
        order(3, 0, 0),
        order(u32::MAX, 0, 0),
        order(0, 0, 65_536),
        order(2, 0, 65_535),
        answer(1, 65_541),
        answer(1, 6),
        answer(1, 5),
        answer(1, 5),
    ];
    play_in(
        rt,
        "let(5), with room",
        &LET_5,
        &[],
        &mut orders,
        &mut [238; 4],
        &mut [NO_EVENT; 3],
        &mut [NO_TOTALS; 34],
    )?;
    play_in(
        rt,
        "let(5) again, with room for one of each",
        &LET_5,
        &[],
        &mut orders,
        &mut [238; 1],
        &mut [NO_EVENT; 1],
        &mut [NO_TOTALS; 1],
    )?;
    play_in(
        rt,
        "let(5), with nothing called",
        &LET_5,
        &[],
        &mut [],
        &mut [238; 3],
        &mut [],
        &mut [],
    )
}

fn race(rt: &HostRuntime) -> io::Result<()> {
    play_in(
        rt,
        "race",
        &RACE,
        &SHEET,
        &mut [
            go(0),
            wait(1),
            go(0),
            go(0),
            wait(5),
            wait(2),
            answer(2, 0),
            answer(1, 3),
            answer(1, 2),
            answer(2, 0),
            go(0),
            answer(4, 2),
            wait(4_294_967_292),
            wait(1),
            go(0),
        ],
        &mut [238; 2],
        &mut [NO_EVENT; 7],
        &mut [NO_TOTALS; 32],
    )?;
    play_in(
        rt,
        "race, on the way",
        &RACE,
        &SHEET,
        &mut [go(1), go(1), wait(0), go(0), wait(3)],
        &mut [238; 24],
        &mut [],
        &mut [NO_TOTALS; 5],
    )
}

fn not_loaded(rt: &HostRuntime) -> io::Result<()> {
    play_in(
        rt,
        "a site of a refused sheet",
        &SITE_4,
        &SHEET[..19],
        &mut [go(0), answer(1, 1), wait(0), order(9, 0, 0)],
        &mut [238; 2],
        &mut [NO_EVENT; 1],
        &mut [NO_TOTALS; 2],
    )
}

fn main(rt: HostRuntime) -> io::Result<()> {
    judgements(&rt)?;
    replies(&rt)?;
    race(&rt)?;
    not_loaded(&rt)
}
