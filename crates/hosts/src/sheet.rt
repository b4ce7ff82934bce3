// A site sheet as a host.
ghost use Rattle.std.specs.Prelude.{◌≡◌, MatchOption};
ghost use Rattle.std.specs.Option.{option_map};
ghost use Rattle.orc.specs.Meaning.{handle};
ghost use Rattle.orc.specs.Expressions.{entry as nth};
ghost use Rattle.orc.specs.Local.{never};
ghost use Rattle.sheets.specs.Format.{Outcome, SheetOutcome};
ghost use Rattle.sheets.specs.Rows.{row_of, rows_of, window_of};
ghost use Rattle.hosts.specs.Meanings.{holds, row_handle, sheet_handle, sheet_meaning, outcome_meaning};
ghost use Rattle.hosts.specs.Laws.{sheet_lawful};

use crate::host::Host;
use sheets::row::{Row, Window};
use sheets::rows::{Rows, read_sheet};

// What the rows of a sheet say. A sheet that was refused has none, and knows no site.
#[derive(Clone, Copy)]
pub struct Sheet {
    rows: Rows,
}

// Whether a row holds a value of a site.
fn holds_call(row: &Row, site: u8, value: u16) -> bool
    ensures { result ≡ holds site value (row_of row.now) }
{
    let (first, last) = row.arguments();
    row.site() == site && (first..=last).contains(&value)
}

// The host of the rows of a sheet.
impl From<Rows> for Sheet {
    ghost from_gives = { λ rows s. s.rows ≡ rows };

    fn from(rows: Rows) -> Sheet {
        Sheet { rows }
    }
}

impl Sheet {
    // The host of a sheet's bytes: its meaning is that of what the bytes come to.
    pub fn new(bytes: &[u8]) -> Sheet
        ensures { (o : Outcome) × SheetOutcome bytes.now o × (sheet_meaning (rows_of result.rows.list) ≡ outcome_meaning o) }
    {
        Sheet::from(read_sheet(bytes).unwrap_or_default())
    }

    // The first row that holds a value of a site.
    fn holder(&self, site: u8, value: u16) -> Option<&Row>
        ensures { MatchOption result (sheet_handle (rows_of self.now.rows.list) site value ≡ never) (λ row. handle (sheet_meaning (rows_of self.now.rows.list)) site value ≡ row_handle (row_of row.now)) }
    {
        self.rows
            .as_slice()
            .iter()
            .find(|row| holds_call(row, site, value))
    }

    // The window of a number in the handle of a call.
    fn window(&self, site: u8, value: u16, number: usize) -> Option<Window>
        ensures { option_map window_of result ≡ nth (handle (sheet_meaning (rows_of self.now.rows.list)) site value).windows number }
    {
        self.holder(site, value)?.windows().get(number).copied()
    }
}

impl Host for Sheet {
    ghost meaning = { λ s. sheet_meaning (rows_of s.rows.list) };

    ghost laws = { λ s. sheet_lawful (rows_of s.rows.list) s.rows.sound };

    fn knows(&self, site: u8) -> bool {
        self.rows.as_slice().iter().any(|row| row.site() == site)
    }

    fn window_count(&self, site: u8, value: u16) -> usize {
        self.holder(site, value)
            .map_or(0, |row| row.windows().len())
    }

    fn ticks(&self, site: u8, value: u16, number: usize) -> Option<(u32, u32)> {
        self.window(site, value, number)
            .map(|window| (window.earliest, window.latest))
    }

    fn values(&self, site: u8, value: u16, number: usize) -> Option<(u16, u16)> {
        self.window(site, value, number)
            .map(|window| (window.lowest, window.highest))
    }

    fn silent(&self, site: u8, value: u16) -> bool {
        self.holder(site, value)
            .map_or_else(|| self.knows(site), |row| row.silent())
    }
}
