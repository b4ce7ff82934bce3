// Bytes that are the bytes of an expression, and no more.
ghost use Rattle.std.specs.Prelude.{◌≡◌, MatchOption, ◌≢◌};
ghost use Rattle.orc.specs.Expressions.{Expression, bytes as form_bytes};
ghost use Rattle.forms.specs.Heads.{expression};

use crate::form::Form;
use crate::scan::{Exact, scan};

// The bytes as a form, if an expression has these bytes.
pub fn expression_form<'a>(bytes: &'a [u8]) -> Option<Form<'a>>
    ensures { MatchOption result ((e : Expression) → bytes.now ≢ form_bytes e) (λ f. (bytes.now ≡ form_bytes (expression f)) × (f.bytes.now ≡ bytes.now)) }
{
    let end = scan::<Exact>(bytes, 0)?;
    (end == bytes.len()).then_some(Form::new(bytes))
}
