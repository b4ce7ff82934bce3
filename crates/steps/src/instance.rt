// Instances of forms.
ghost use Rattle.orc.specs.Expressions.{bytes as form_bytes};

use crate::replacement::Replacement;
use fixed::full::Full;
use forms::form::Form;
use walks::buffer::Buffer;
use walks::copies::substitute_into;

// An instance of a form: the form with a value in the free places of a variable.
// Kept: variable and value here, and not the `Change` of `walks`. `substitute_into` is public, and takes them as they are.
#[derive(Clone, Copy)]
pub(crate) struct Instance<'a> {
    pub(crate) form: Form<'a>,
    pub(crate) variable: u8,
    pub(crate) value: u16,
}

impl<'a> Replacement for Instance<'a> {
    ghost use Rattle.steps.specs.Instances.{instance};

    ghost written = { λ i. form_bytes (instance i) };

    fn put(self, out: &mut Buffer) -> Result<(), Full> {
        substitute_into(self.form, self.value, self.variable, out)
    }
}
