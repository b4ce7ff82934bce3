// Operands of one, two and four bytes, the highest byte first. One that passes the input's end is cut short there.
ghost use Rattle.std.specs.Prelude.{◌≡◌, ℕ, ◌+◌, ◌<◌, ◌≤◌, List, length, slice_range, IfSome, MatchOption, MatchResult};
ghost use Rattle.formats.specs.Operands.{byte_at, two_at, four_at};

use crate::fault::Fault;

// A number that can be an operand.
pub trait Operand: Sized {
    // How many bytes it has.
    ghost width: { ℕ };

    // What stands for it at an offset of some bytes.
    ghost number_at: { List ℕ → ℕ → Self };

    // The number at an offset, if all its bytes are there.
    fn at(bytes: &[u8], at: usize) -> Option<Self>
        ensures { MatchOption result (length bytes.now < at + width) (λ n. (at + width ≤ length bytes.now) × (n ≡ number_at bytes.now at)) };
}

// The N bytes from an offset on, if they are all there.
pub fn bytes_at<const N: usize>(bytes: &[u8], at: usize) -> Option<[u8; N]>
    ensures there { MatchOption result (length bytes.now < at + N) (λ there. (at + N ≤ length bytes.now) × ((i : ℕ) → i < N → byte_at there i ≡ byte_at bytes.now (at + i))) }
    ensures range { IfSome result (λ there. there ≡ slice_range bytes.now at (at + N)) }
{
    bytes.get(at..)?.first_chunk().copied()
}

impl Operand for u8 {
    ghost width = { 1 };

    ghost number_at = { byte_at };

    fn at(bytes: &[u8], at: usize) -> Option<u8> {
        bytes.get(at).copied()
    }
}

// Kept: an implementation for each type, here and below. The library reads them by a function of each type, and by no trait.
impl Operand for u16 {
    ghost width = { 2 };

    ghost number_at = { two_at };

    fn at(bytes: &[u8], at: usize) -> Option<u16> {
        bytes_at(bytes, at).map(u16::from_be_bytes)
    }
}

impl Operand for u32 {
    ghost width = { 4 };

    ghost number_at = { four_at };

    fn at(bytes: &[u8], at: usize) -> Option<u32> {
        bytes_at(bytes, at).map(u32::from_be_bytes)
    }
}

// The operand at an offset.
// Kept: bytes and an offset, and not a reader that moves on. A fault tells an operand's offset, or the length of all bytes, and a
// reader would have to hold both.
pub fn read<T: Operand>(bytes: &[u8], at: usize) -> Result<T, Fault>
    ensures { MatchResult result (λ n. (at + T.width ≤ length bytes.now) × (n ≡ T.number_at bytes.now at)) (λ f. (length bytes.now < at + T.width) × (f ≡ Fault.CutShort (length bytes.now))) }
{
    T::at(bytes, at).ok_or(Fault::CutShort(bytes.len()))
}
