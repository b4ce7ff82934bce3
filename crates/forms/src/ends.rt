// Where a form ends, by its commands and their widths alone.
ghost use Rattle.std.specs.Prelude.{◌≡◌, ℕ, ◌+◌, ◌<◌, ◌≤◌, List, ◌++◌, length, drop, IfSome, Some};
ghost use Rattle.orc.specs.Expressions.{Expression, bytes as form_bytes};
ghost use Rattle.forms.specs.Shapes.{FormAt};

use crate::scan::{Whole, scan};

// The offset behind the form that begins at an offset, if the bytes there have the shape of one.
pub fn form_end(bytes: &[u8], at: usize) -> Option<usize>
    ensures found { IfSome result (λ end. FormAt bytes.now at end) }
    ensures within { IfSome result (λ end. (at < end) × (end ≤ length bytes.now)) }
    ensures only { (end : ℕ) → FormAt bytes.now at end → result ≡ Some end }
    ensures exact { (e : Expression) (rest : List ℕ) → drop at bytes.now ≡ form_bytes e ++ rest → result ≡ Some (at + length (form_bytes e)) }
{
    scan::<Whole>(bytes, at)
}
