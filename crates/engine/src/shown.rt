// The totals of a site as they are read.
ghost use Rattle.std.specs.Prelude.{◌≡◌, ◌+◌, ◌≤◌};

use crate::table::Totals;

// How many tickets of a site were called, and what became of them: answered, withdrawn, lapsed, or still standing.
// Kept: the four numbers of `Totals` again. How many stand follows only where they balance, which a public method could not ask.
#[derive(Clone, Copy, PartialEq, Eq, Debug)]
pub struct SiteTotals {
    pub called: u16,
    pub answered: u16,
    pub withdrawn: u16,
    pub lapsed: u16,
    pub standing: u16,
}

impl Totals {
    // As they are read: with how many tickets are standing, which are those that did not end.
    pub(crate) fn shown(self) -> SiteTotals
        requires { self.answered + self.withdrawn + self.lapsed ≤ self.called }
        ensures called { result.called ≡ self.called }
        ensures answered { result.answered ≡ self.answered }
        ensures withdrawn { result.withdrawn ≡ self.withdrawn }
        ensures lapsed { result.lapsed ≡ self.lapsed }
        ensures standing { self.answered + self.withdrawn + self.lapsed + result.standing ≡ self.called }
    {
        SiteTotals {
            called: self.called,
            answered: self.answered,
            withdrawn: self.withdrawn,
            lapsed: self.lapsed,
            standing: self.called - self.answered - self.withdrawn - self.lapsed,
        }
    }
}
