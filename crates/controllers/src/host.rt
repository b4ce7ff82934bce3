// The host of a controller.
ghost use Rattle.controllers.specs.Judged.{MakesHost};

use formats::fault::Fault;
use hosts::local::Local;
use hosts::pair::Pair;
use hosts::sheet::Sheet;
use sheets::rows::{Rows, read_sheet};

// The local sites, and from 4 on those of a sheet.
pub type Controller = Pair<Local, Sheet>;

// The host that a sheet makes, and the judgement on the sheet. One that is refused adds no site.
pub fn controller(sheet: &[u8]) -> (Controller, Result<(), Fault>)
    ensures { MakesHost sheet.now result.1 (⟦<Pair<Local, Sheet> as hosts::host::Host>⟧.meaning result.0) }
{
    let (rows, judged) = match read_sheet(sheet) {
        Ok(rows) => (rows, Ok(())),
        Err(fault) => (Rows::default(), Err(fault)),
    };
    let host = Pair {
        first: Local,
        second: Sheet::from(rows),
        split: 4,
    };
    (host, judged)
}
