// Which variables are bound.
ghost use Rattle.std.specs.Prelude.{◌≡◌};
ghost use Rattle.files.specs.Judgement.{nothing_bound, binding};
ghost use Rattle.files.specs.Scopes.{bits};

use crate::small::Small;

// A set of variables, each a bit.
// Kept: bits, since the sets of the library need a heap.
#[derive(Clone, Copy)]
pub(crate) struct Scope {
    pub(crate) bound: u32,
}

impl Scope {
    // No variable.
    // Kept: not `Default`. The name says what the judge begins with.
    pub(crate) fn empty() -> Scope
        ensures { bits result.bound ≡ nothing_bound }
    {
        Scope { bound: 0 }
    }

    // The same with one variable more.
    pub(crate) fn with(self, variable: Small) -> Scope
        ensures { bits result.bound ≡ binding variable.number (bits self.bound) }
    {
        Scope {
            bound: self.bound | 1 << variable.number,
        }
    }

    // Whether a variable is among them.
    pub(crate) fn holds(self, variable: Small) -> bool
        ensures { result ≡ bits self.bound variable.number }
    {
        (self.bound >> variable.number) & 1 == 1
    }
}
