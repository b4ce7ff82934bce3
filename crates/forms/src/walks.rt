// Walks over a form, from part to part.
ghost use Rattle.std.specs.Prelude.{◌≡◌};
ghost use Rattle.orc.specs.Variables.{free};
ghost use Rattle.forms.specs.Heads.{expression};

use crate::form::{Form, Head};

impl<'a> Form<'a> {
    // Whether a variable stands free somewhere in it.
    #[tactic(auto, unfolding(orc::specs::Variables::free))]
    pub fn is_free(self, variable: u8) -> bool
        ensures { result ≡ free variable (expression self.entry) }
    {
        match self.head() {
            Head::Stop | Head::Pending(_) => false,
            Head::SiteCall { parameter, .. } | Head::DefinitionCall { parameter, .. } => {
                parameter.is_variable(variable)
            }
            Head::Parallel(f, g) => f.is_free(variable) || g.is_free(variable),
            Head::Sequential(x, f, g) => f.is_free(variable)
                || (x != variable && g.is_free(variable)),
            Head::Pruning(x, f, g) => (x != variable && f.is_free(variable)) || g.is_free(variable),
        }
    }
}
