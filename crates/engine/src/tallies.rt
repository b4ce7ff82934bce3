// Tickets are counted by what became of them.
ghost use Rattle.std.specs.Prelude.{◌≡◌, ℕ, ◌<◌, ◌≤◌, [], ◌∷◌, MatchOption};
ghost use Rattle.orc.specs.Calls.{Pending};
ghost use Rattle.runs.specs.States.{no_totals};
ghost use Rattle.engine.specs.Tallies.{totals_of, totals_at, amount, by_cause, CountsIn};

use crate::table::{Cause, SITES, Table, Totals};

impl Table {
    // With nothing counted.
    pub(crate) fn new() -> Table
        ensures { (site : ℕ) → totals_at result site ≡ no_totals }
    {
        Table {
            lines: [Totals::default(); SITES],
        }
    }

    // The totals of a site, if there is such a site.
    pub(crate) fn get(&self, site: u8) -> Option<Totals>
        ensures { MatchOption result (32 ≤ site) (λ t. (site < 32) × (totals_of t ≡ totals_at self.now site)) }
    {
        self.lines.get(usize::from(site)).copied()
    }

    // Counts one ticket of a site, for which there is room.
    pub(crate) fn count(&mut self, site: u8, cause: Cause)
        requires { (site < 32) × (amount cause (totals_at self.old site) < 65535) }
        ensures { (p : Pending) → p.site ≡ site → CountsIn self.old self.new (by_cause cause (p ∷ [])) }
    {
        let line = &mut self.lines[usize::from(site)];
        match cause {
            Cause::Called => line.called += 1,
            Cause::Answered => line.answered += 1,
            Cause::Withdrawn => line.withdrawn += 1,
            Cause::Lapsed => line.lapsed += 1,
        }
    }
}
