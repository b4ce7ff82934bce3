// The line that is printed of a refusal.
ghost use Rattle.std.specs.Prelude.{Some};
ghost use Rattle.verdicts.specs.Verdicts.{verdict};

use crate::reason::Reason;
use std::fmt;

// A reason as the line that is printed of it: `refused NUMBER at PLACE: Name`
#[derive(Clone, Copy)]
pub struct Verdict<'a, R>(pub &'a R);

impl<'a, R: Reason> fmt::Display for Verdict<'a, R> {
    ghost output = { λ v. Some (verdict (R.told v.0.now)) };

    fn fmt<W: fmt::Write>(&self, f: &mut fmt::Formatter<W>) -> fmt::Result {
        let number = self.0.number();
        let place = self.0.place();
        let name = self.0.name();
        write!(f, "refused {number} at {place}: {name}")
    }
}
