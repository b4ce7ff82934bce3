// How long the forms are that begin at each offset of some bytes.
ghost use Rattle.std.specs.Prelude.{◌≡◌, ◌<◌, drop};
ghost use Rattle.forms.specs.Lengths.{length_at, Tells};

use crate::form::Form;
use crate::scan::{Rule, Whole};

// The number at an offset of a table, or 0 where there is none.
pub(crate) fn length_at(lengths: &[u16], at: usize) -> usize
    ensures { result ≡ length_at lengths.now at }
{
    lengths.get(at).copied().map_or(0, usize::from)
}

// What a table tells from an offset on.
pub(crate) fn lengths_from<'a>(lengths: &'a [u16], at: usize) -> &'a [u16]
    ensures { result.now ≡ drop at lengths.now }
{
    lengths.get(at..).unwrap_or(&[])
}

// How long the form is that begins at an offset, by what a table tells of the offsets behind it. It is 0 where there is none, or
// where its length is no number of the table.
fn measured_at(bytes: &[u8], lengths: &[u16], at: usize) -> u16
    ensures { 0 < result → Tells bytes.now lengths.now at result }
{
    let Some(command) = Whole::command(bytes, at) else {
        return 0;
    };
    let width = command.width();
    if !command.is_split() {
        return width as u16;
    }
    let first = length_at(lengths, at + width);
    if first == 0 {
        return 0;
    }
    let second = length_at(lengths, at + width + first);
    if second == 0 {
        return 0;
    }
    u16::try_from(width + first + second).unwrap_or(0)
}

// Bytes to be read as a form, with the length of each form in them, as far as the table that is lent has room for it. What stood
// in the table does not count.
pub fn measured<'a>(bytes: &'a [u8], table: &'a mut [u16]) -> Form<'a>
    ensures { result.bytes.now ≡ bytes.now }
{
    let long = bytes.len().min(table.len());
    let lengths = &mut table[..long];
    // Kept: a loop from the last offset to the first, since what is told of a form is made of what is told behind it.
    let mut at = long;
    while at > 0 {
        at -= 1;
        lengths[at] = measured_at(bytes, lengths, at);
    }
    Form { bytes, lengths }
}
