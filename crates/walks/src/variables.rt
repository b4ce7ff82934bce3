// Sets of variables.
ghost use Rattle.std.specs.Prelude.{◌≡◌, ℕ, ◌<◌, false, not, ◌&&◌, ◌||◌, ◌==◌};
ghost use Rattle.orc.specs.Variables.{is_variable};
ghost use Rattle.forms.specs.Heads.{parameter_of};
ghost use Rattle.walks.specs.Sets.{holds};

use forms::form::Parameter;

// How many variables there are: a file has those from 0 on.
pub(crate) const COUNT: u8 = 32;

// A set of these variables, each a bit.
// Kept: bits, since the sets of the library need a heap.
#[derive(Clone, Copy)]
pub(crate) struct Variables {
    pub(crate) bits: u32,
}

impl Variables {
    // With no variable.
    pub(crate) fn none() -> Variables
        ensures { (x : ℕ) → holds result.bits x ≡ false }
    {
        Variables { bits: 0 }
    }

    // The variable of a parameter, if it has one.
    pub(crate) fn of(parameter: Parameter) -> Variables
        ensures { (x : ℕ) → x < 32 → holds result.bits x ≡ is_variable x (parameter_of parameter) }
    {
        match parameter {
            Parameter::Variable(variable) if variable < u16::from(COUNT) => Variables {
                bits: 1 << variable,
            },
            _ => Variables::none(),
        }
    }

    // Those of two sets together.
    pub(crate) fn and(self, other: Variables) -> Variables
        ensures { (x : ℕ) → holds result.bits x ≡ (holds self.bits x || holds other.bits x) }
    {
        Variables {
            bits: self.bits | other.bits,
        }
    }

    // All but one.
    pub(crate) fn without(self, variable: u8) -> Variables
        ensures { (x : ℕ) → x < 32 → holds result.bits x ≡ (not (x == variable) && holds self.bits x) }
    {
        if variable >= COUNT {
            return self;
        }
        Variables {
            bits: self.bits & !(1 << variable),
        }
    }

    // Whether a variable is among them.
    pub(crate) fn holds(self, variable: u8) -> bool
        requires { variable < 32 }
        ensures { result ≡ holds self.bits variable }
    {
        (self.bits >> variable) & 1 == 1
    }
}
