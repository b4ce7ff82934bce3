// The judgements on a sheet and on a file.
use crate::verdict::Verdict;

// On the sheet, and on the file with the host that the sheet makes.
#[repr(C)]
#[derive(Clone, Copy, Debug, Default)]
pub struct Judgement {
    pub sheet: Verdict,
    pub file: Verdict,
}
