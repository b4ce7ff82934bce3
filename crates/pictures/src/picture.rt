// A run over time, as a text that can be read at a glance.
ghost use Rattle.std.specs.Prelude.{◌≡◌, ℕ, ◌+◌, ◌<◌, length, IfOk, string_bytes};
ghost use Rattle.pictures.specs.Drawings.{Begins, heading, quiet_line, Scale};

use crate::lane::{Lane, Publication};
use crate::scale::Spacing;
use std::alloc::{AllocError, Global};
use std::iter;

// What stands in front of the marks of publications.
const PUBLISHED: &str = "published";

// The marks of a bar.
const LEGEND: &str = "| called  x answered  / withdrawn  ! lapsed  > standing\n";

// The marks of a column with publications.
const COUNTS: &str = "\n* published once  2 to 9 so often  + more often\n";

// The calls and the publications of a run whose clock stands at a tick, drawn to a scale. It begins with the scale and the
// clock, or says that there is nothing to show.
// Kept: three parameters. The function is public; a struct made of them here would be taken apart again in `drawn`.
pub fn picture(
    heap: Global,
    lanes: &[Lane],
    publications: &[Publication],
    clock: u32,
) -> Result<String, AllocError>
    ensures quiet { length lanes.now ≡ 0 → length publications.now ≡ 0 → IfOk result (λ t. string_bytes t ≡ quiet_line clock) }
    ensures drawn { 0 < length lanes.now + length publications.now → IfOk result (λ t. (n : ℕ) × Scale clock n × Begins (heading n clock) (string_bytes t)) }
{
    if lanes.is_empty() && publications.is_empty() {
        return format!(in heap; "no ticket and no publication up to tick {clock}\n");
    }
    drawn(heap, lanes, publications, clock)
}

// A picture with its heading.
// Kept: lines that are made to be appended. Each function that wrote behind the heading would have to promise that it keeps it.
fn drawn(
    heap: Global,
    lanes: &[Lane],
    publications: &[Publication],
    clock: u32,
) -> Result<String, AllocError>
    ensures { IfOk result (λ t. (n : ℕ) × Scale clock n × Begins (heading n clock) (string_bytes t)) }
{
    let drawing = Drawing::new(heap, lanes, clock)?;
    let ticks = drawing.spacing.ticks;
    let lines = drawing.with_lines(lanes, publications)?;
    format!(in heap; "ticks in a column: {ticks}, clock: {clock}\n{lines}")
}

// The lines of a picture below its heading, as they are drawn: the text so far, how many characters stand in front of each
// bar, the ticks of a column, and the last column.
#[derive(Drop)]
struct Drawing {
    text: String,
    margin: usize,
    spacing: Spacing,
    last: u8,
}

impl Drawing {
    // No line so far. The margin has room for each label.
    fn new(heap: Global, lanes: &[Lane], clock: u32) -> Result<Drawing, AllocError>
        ensures { IfOk result (λ d. Scale clock d.spacing.ticks) }
    {
        let spacing = Spacing::of(clock);
        let widest = lanes.iter().try_fold(
            PUBLISHED.len(),
            |widest, lane| -> Result<usize, AllocError> {
                Ok(widest.max(lane.to_string(heap)?.len()))
            },
        )?;
        Ok(Drawing {
            text: String::new(heap),
            margin: widest.saturating_add(2),
            spacing,
            last: spacing.column(clock),
        })
    }

    // The text of all lines.
    fn with_lines(
        mut self,
        lanes: &[Lane],
        publications: &[Publication],
    ) -> Result<String, AllocError> {
        self.add_ticks()?;
        self.add_ruler()?;
        self.add_lanes(lanes)?;
        self.add_publications(publications)?;
        Ok(self.text)
    }

    // The ticks, one over every twentieth column, with room up to the next one where that is not past the last column.
    fn add_ticks(&mut self) -> Result<(), AllocError> {
        self.add_padded("")?;
        let last = self.last;
        for at in (0..=last).filter(|at| *at % 20 == 0) {
            let tick = u64::from(at) * u64::from(self.spacing.ticks);
            let room = if at / 20 == last / 20 { 0 } else { 20 };
            write!(self.text, "{tick:<room$}")?;
        }
        self.text.push_str("\n")
    }

    // The ruler below them, with a cross at every tenth column.
    fn add_ruler(&mut self) -> Result<(), AllocError> {
        self.add_padded("")?;
        let marks = (0..=self.last).map(|at| if at % 10 == 0 { '+' } else { '.' });
        self.text.extend(marks)?;
        self.text.push_str("\n")
    }

    // The lines of the calls, and then the marks explained.
    fn add_lanes(&mut self, lanes: &[Lane]) -> Result<(), AllocError> {
        if lanes.is_empty() {
            return self.text.push_str("no ticket\n");
        }
        for lane in lanes {
            self.add_lane(lane)?;
        }
        self.text.push_str(LEGEND)
    }

    // The line of a call: its label, its bar, and when it was made and how it ended.
    fn add_lane(&mut self, lane: &Lane) -> Result<(), AllocError> {
        let label = lane.to_string(*self.text.allocator())?;
        self.add_padded(label.as_str())?;
        self.add_bar(lane)?;
        let from = lane.from;
        let end = lane.end;
        write!(self.text, "  called at {from}, {end}\n")
    }

    // A bar from the column of the call to that of its end, and spaces up to the last column.
    fn add_bar(&mut self, lane: &Lane) -> Result<(), AllocError> {
        let spacing = self.spacing;
        let from = spacing.column(lane.from);
        let to = lane.end.tick().map_or(self.last, |at| spacing.column(at));
        self.add_repeated(' ', from)?;
        if from < to {
            self.text.push('|')?;
            self.add_repeated('-', to - from - 1)?;
        }
        self.text.push_str(lane.end.mark())?;
        self.add_repeated(' ', self.last.saturating_sub(to.max(from)))
    }

    // The line with a mark for each column up to the last with a publication, and the list of the publications.
    fn add_publications(&mut self, publications: &[Publication]) -> Result<(), AllocError> {
        let [first, rest @ ..] = publications else {
            return self.text.push_str("nothing published\n");
        };
        self.add_padded(PUBLISHED)?;
        let spacing = self.spacing;
        let marks = (0..=furthest(publications, spacing)).map(|at| count_mark(count_at(
            publications,
            spacing,
            at,
        )));
        self.text.extend(marks)?;
        write!(self.text, "\nvalues by tick  {first}")?;
        for publication in rest {
            write!(self.text, ", {publication}")?;
        }
        self.text.push_str(COUNTS)
    }

    // A text that stands in front of the columns, and spaces after it up to them.
    fn add_padded(&mut self, label: &str) -> Result<(), AllocError> {
        let margin = self.margin;
        write!(self.text, "{label:<margin$}")
    }

    // A character so many times.
    fn add_repeated(&mut self, mark: char, count: u8) -> Result<(), AllocError> {
        self.text.extend(iter::repeat_n(mark, usize::from(count)))
    }
}

// The last column with a publication.
fn furthest(publications: &[Publication], spacing: Spacing) -> u8 {
    publications
        .iter()
        .map(|publication| spacing.column(publication.clock))
        .max()
        .unwrap_or(0)
}

// How many publications fall into a column.
fn count_at(publications: &[Publication], spacing: Spacing, at: u8) -> usize {
    publications
        .iter()
        .filter(|publication| spacing.column(publication.clock) == at)
        .count()
}

// The mark of a column with so many publications.
// Kept: a digit by its code. `char::from_digit` gives an `Option`, which would never be none.
fn count_mark(count: usize) -> char {
    match count {
        0 => ' ',
        1 => '*',
        2..=9 => char::from(b'0' + count as u8),
        _ => '+',
    }
}
