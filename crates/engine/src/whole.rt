// Forms that are known to be whole.
ghost use Rattle.std.specs.Prelude.{◌≡◌, ◌≤◌, length};
ghost use Rattle.forms.specs.Heads.{IsForm};
ghost use Rattle.walks.specs.Capacity.{capacity};
ghost use Rattle.walks.specs.Contents.{content};

use forms::form::Form;
use forms::measure::measured;
use walks::buffer::Buffer;

// Bytes that are a form, and no more than a buffer can hold.
#[derive(Clone, Copy)]
pub(crate) struct Whole<'a> {
    pub(crate) form: Form<'a>,
    ghost is_form: { IsForm form.bytes.now },
    ghost short: { length form.bytes.now ≤ capacity },
}

impl<'a> Whole<'a> {
    // What a buffer holds, where that is a form.
    pub(crate) fn new(buffer: &'a Buffer) -> Whole<'a>
        requires { IsForm (content buffer.now) }
        ensures { result.form.bytes.now ≡ content buffer.now }
    {
        Whole {
            form: Form::new(buffer.as_slice()),
        }
    }

    // The same, with the lengths of the forms in it, in a table that is lent for it.
    pub(crate) fn measured(buffer: &'a Buffer, lengths: &'a mut [u16]) -> Whole<'a>
        requires { IsForm (content buffer.now) }
        ensures { result.form.bytes.now ≡ content buffer.now }
    {
        Whole {
            form: measured(buffer.as_slice(), lengths),
        }
    }
}
