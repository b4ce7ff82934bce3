// A file and a sheet are judged.
ghost use Rattle.controllers.specs.Judged.{Judged};

use crate::host::controller;
use crate::judgement::Judgement;
use crate::verdict::Verdict;
use files::check::check_file;

// Judges a sheet, and a file with the host that the sheet makes.
pub fn check(file: &[u8], sheet: &[u8]) -> Judgement
    ensures { Judged file.now sheet.now result }
{
    let (host, judged) = controller(sheet);
    Judgement {
        sheet: Verdict::of(&judged),
        file: Verdict::of(&check_file(&host, file)),
    }
}
