// The rows of a sheet that was accepted.
ghost use Rattle.std.specs.Prelude.{◌≡◌, true, List, [], map, Ok, Err, MatchResult, ◌≢◌};
ghost use Rattle.sheets.specs.Format.{SheetRow, SheetOutcome, sheet_bytes, sound_sheet};
ghost use Rattle.sheets.specs.Rows.{row_of, rows_of};

use crate::read::read_rows;
use crate::row::{MOST_ROWS, Row, no_rows};
use fixed::list::FixedList;
use formats::fault::Fault;

// Rows that keep every rule of the format.
#[derive(Clone, Copy)]
pub struct Rows {
    pub(crate) list: FixedList<Row, MOST_ROWS>,
    ghost sound: { sound_sheet (rows_of list) ≡ true },
}

// No rows.
// Kept: by hand. A list in fixed memory has no default, since it is given what lies in its unused places.
impl Default for Rows {
    ghost is_default = { λ rows. rows_of rows.list ≡ [] };

    fn default() -> Rows {
        Rows { list: no_rows() }
    }
}

impl Rows {
    // The rows, in their order.
    pub fn as_slice(&self) -> &[Row]
        ensures { map row_of result.now ≡ rows_of self.now.list }
    {
        self.list.as_slice()
    }
}

// Reads a sheet: its rows, which keep every rule and of which the bytes are the encoding; or its first fault.
pub fn read_sheet(bytes: &[u8]) -> Result<Rows, Fault>
    ensures outcome { MatchResult result (λ rows. SheetOutcome bytes.now (Ok (rows_of rows.list))) (λ f. SheetOutcome bytes.now (Err f)) }
    ensures encoded { MatchResult result (λ rows. (sound_sheet (rows_of rows.list) ≡ true) × (bytes.now ≡ sheet_bytes (rows_of rows.list))) (λ _. (rows : List SheetRow) → sound_sheet rows ≡ true → bytes.now ≢ sheet_bytes rows) }
{
    let list = read_rows(bytes)?;
    Ok(Rows { list })
}

// Judges a sheet: whether it is accepted, or else its first fault. It agrees with `read_sheet`, since a sheet has one outcome.
pub fn check_sheet(bytes: &[u8]) -> Result<(), Fault>
    ensures { MatchResult result (λ _. (rows : List SheetRow) × SheetOutcome bytes.now (Ok rows)) (λ f. SheetOutcome bytes.now (Err f)) }
{
    read_sheet(bytes)?;
    Ok(())
}
