// Reports, and the two kinds that judge bytes.
ghost use Rattle.std.specs.Prelude.{◌≡◌, true, false, codes, IfOk, Some, Err, string_bytes};
ghost use Rattle.reports.specs.Verdicts.{first_line, Begins};

use crate::dump::bytes_around;
use formats::fault::Fault;
use std::alloc::{AllocError, Global};
use std::fmt;
use verdicts::reason::Reason;

// A report: its text, and whether what it speaks of was accepted.
#[derive(Drop)]
pub struct Report {
    pub text: String,
    // Kept: a flag, and not an enum of two texts. Either text is printed alike, and only an exit status asks for more.
    pub accepted: bool,
}

// Its text.
impl fmt::Display for Report {
    ghost output = { λ r. Some (string_bytes r.text) };

    fn fmt<W: fmt::Write>(&self, f: &mut fmt::Formatter<W>) -> fmt::Result {
        f.write_str(self.text.as_str())
    }
}

impl Report {
    // The report on bytes that are accepted: the verdict, and then what they say.
    // Kept: a text that is made to be appended, here and in the other reports. Each function that wrote into the report's own text
    // would have to promise that it keeps what stands before.
    pub(crate) fn acceptance(heap: Global, contents: &str) -> Result<Report, AllocError>
        ensures { IfOk result (λ t. Begins (codes "accepted\n") (string_bytes t.text) × (t.accepted ≡ true)) }
    {
        Ok(Report {
            text: format!(in heap; "accepted\n{contents}")?,
            accepted: true,
        })
    }

    // The report on bytes that are refused with a fault: the verdict, and then what was expected and the bytes around the place.
    pub(crate) fn refusal(
        heap: Global,
        bytes: &[u8],
        fault: Fault,
        expected: &str,
    ) -> Result<Report, AllocError>
        ensures { IfOk result (λ t. Begins (first_line {X = Unit {0}} (Err fault)) (string_bytes t.text) × (t.accepted ≡ false)) }
    {
        let around = bytes_around(heap, bytes, fault.place())?;
        let mut text = format!(in heap; "{fault}\n")?;
        write!(text, "expected {expected}\n{around}")?;
        Ok(Report {
            text,
            accepted: false,
        })
    }
}
