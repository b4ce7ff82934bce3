// How many bytes each command has with its operands, in both files.
ghost use Rattle.std.specs.Prelude.{◌≡◌};
ghost use Rattle.formats.specs.Widths.{width_of};

// The width of each byte up to the last command; 0 where there is none.
// Kept: a table. With a match in its place, the report on a long file took two fifths more instructions.
const WIDTHS: [u8; 18] = [1, 5, 5, 1, 2, 2, 12, 0, 0, 0, 0, 0, 0, 0, 0, 0, 7, 13];

// The width of a command with its operands; 0 where the byte is no command.
// Kept: a number for none too. Whoever steps over commands adds it, and asks elsewhere whether there is one.
pub fn width(command: u8) -> usize
    ensures { result ≡ width_of command }
{
    WIDTHS
        .get(usize::from(command))
        .copied()
        .map_or(0, usize::from)
}
