// Bytes around a place, in hexadecimal, with the place marked.
ghost use Rattle.std.specs.Prelude.{IfOk, string_bytes};
ghost use Rattle.reports.specs.Ranges.{offset_text};
ghost use Rattle.reports.specs.Verdicts.{Begins};

use std::alloc::{AllocError, Global};

// How many bytes are shown on either side.
const AROUND: usize = 8;

// A line such as `  offset 4: 00 00 [ff] 11`, or with `[end]` where the place is past the last byte.
pub(crate) fn bytes_around(heap: Global, bytes: &[u8], place: usize) -> Result<String, AllocError>
    ensures { IfOk result (λ t. Begins (offset_text bytes.now place) (string_bytes t)) }
{
    let from = place.saturating_sub(AROUND).min(bytes.len());
    let to = place.saturating_add(AROUND + 1).min(bytes.len());
    let cells = cells(heap, &bytes[from..to], place - from)?;
    let mut line = format!(in heap; "  offset {from}:")?;
    writeln!(line, "{cells}")?;
    Ok(line)
}

// A cell for each byte, that at the place in brackets, or an end in brackets where the place is past them.
fn cells(heap: Global, bytes: &[u8], place: usize) -> Result<String, AllocError> {
    let mut text = String::new(heap);
    for (i, byte) in bytes.iter().enumerate() {
        if i == place {
            write!(text, " [{byte:02x}]")?;
        } else {
            write!(text, " {byte:02x}")?;
        }
    }
    if place >= bytes.len() {
        write!(text, " [end]")?;
    }
    Ok(text)
}
