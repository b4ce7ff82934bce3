// The controller of a lift, as a host.
ghost use Rattle.std.specs.Prelude.{◌≡◌, List, Ok, Err, MatchResult};
ghost use Rattle.sheets.specs.Format.{SheetRow, SheetOutcome};
ghost use Rattle.reports.specs.Replies.{controller};

use formats::fault::Fault;
use hosts::host::Host;
use hosts::local::Local;
use hosts::pair::Pair;
use hosts::sheet::Sheet;
use sheets::rows::read_sheet;

// The local sites, and from 4 on those of a sheet; or the fault of a sheet that is refused.
pub fn controller(sheet: &[u8]) -> Result<Pair<Local, Sheet>, Fault>
    ensures { MatchResult result
        (λ host. (rows : List SheetRow) × SheetOutcome sheet.now (Ok rows) × (⟦<Pair<Local, Sheet> as Host>⟧.meaning host ≡ controller (Ok rows)))
        (λ f. SheetOutcome sheet.now (Err f)) }
{
    Ok(Pair {
        first: Local,
        second: Sheet::from(read_sheet(sheet)?),
        split: 4,
    })
}
