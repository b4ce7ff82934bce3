// The totals of sites in numbers.
ghost use Rattle.std.specs.Prelude.{◌≡◌};
ghost use Rattle.orc.specs.Expressions.{entry};
ghost use Rattle.engine.specs.Stands.{state_of};
ghost use Rattle.controllers.specs.Shown.{all_totals};
ghost use Rattle.controllers.specs.Counts.{counts_of};
ghost use Rattle.controllers.specs.Written.{laid};

use engine::run::Run;
use engine::shown::SiteTotals;

// How many tickets of a site were called, and what became of them.
#[repr(C)]
#[derive(Clone, Copy, Debug, Default)]
pub struct Totals {
    pub called: u32,
    pub answered: u32,
    pub withdrawn: u32,
    pub lapsed: u32,
    pub standing: u32,
}

impl From<SiteTotals> for Totals {
    ghost from_gives = { λ totals t. t ≡ counts_of totals };

    fn from(totals: SiteTotals) -> Totals {
        Totals {
            called: u32::from(totals.called),
            answered: u32::from(totals.answered),
            withdrawn: u32::from(totals.withdrawn),
            lapsed: u32::from(totals.lapsed),
            standing: u32::from(totals.standing),
        }
    }
}

// The totals of the site of a number, if there is such a site.
fn counted<H>(run: &Run<H>, site: usize) -> Option<Totals>
    ensures { result ≡ entry (all_totals (state_of run.now.plain)) site }
{
    let totals = run.totals(u8::try_from(site).ok()?)?;
    Some(Totals::from(totals))
}

// Writes the totals of the sites, site 0 first, as far as there is room.
pub fn write_totals<H>(run: &Run<H>, totals: &mut [Totals])
    ensures { totals.new ≡ laid (all_totals (state_of run.now.plain)) totals.old }
{
    for (site, place) in totals.iter_mut().enumerate() {
        if let Some(totals) = counted(run, site) {
            *place = totals;
        }
    }
}
