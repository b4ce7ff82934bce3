// Fixed memory for a form under construction.
ghost use Rattle.std.specs.Prelude.{◌≡◌, ◌+◌, ◌≤◌, ◌++◌, length};
ghost use Rattle.walks.specs.Contents.{content, HasRoom};

use fixed::list::FixedList;

// How many bytes a buffer can hold.
pub const CAPACITY: usize = 8208;

// The bytes that have been written so far.
pub type Buffer = FixedList<u8, CAPACITY>;

// Adds bytes for which there is room.
// Kept: a function of its own, which states that there is room; the public `extend_from_slice` asks for nothing.
pub(crate) fn add(out: &mut Buffer, bytes: &[u8])
    requires { HasRoom out.old (length bytes.now) }
    ensures content { content out.new ≡ content out.old ++ bytes.now }
    ensures len { length (content out.new) ≡ length (content out.old) + length bytes.now }
{
    out.extend_from_slice(bytes).unwrap();
}
