// The four sites that every controller has: let, if, signal and rtimer.
ghost use Rattle.std.specs.Prelude.{◌≡◌, [], ◌∷◌, ◌++◌, Some, codes, decimal, MatchOption};
ghost use Rattle.std.specs.Option.{option_map};
ghost use Rattle.orc.specs.Meaning.{handle};
ghost use Rattle.orc.specs.Expressions.{entry};
ghost use Rattle.orc.specs.Local.{local};
ghost use Rattle.orc.specs.Lawful.{local_lawful};
ghost use Rattle.hosts.specs.LocalSites.{replies_of, name_of, IsNumbered, window_of};

use crate::host::Host;
use std::error::Error;
use std::fmt;

#[derive(Clone, Copy)]
pub struct Local;

// The sites in the order of their numbers, from 0.
#[derive(Clone, Copy, PartialEq, Eq, Debug)]
pub enum LocalSite {
    Let,
    If,
    Signal,
    Rtimer,
}

// A number that no local site has.
// Kept: an error of its own, which `TryFrom` needs. Its text says what the number is not; a shared one would have to be told.
#[derive(Clone, Copy, PartialEq, Eq, Debug)]
pub struct NoLocalSite(pub u8);

// The one reply that a local site gives: its age in ticks, and its value.
#[derive(Clone, Copy)]
struct Reply {
    age: u32,
    value: u16,
}

impl TryFrom<u8> for LocalSite {
    type Error = NoLocalSite;

    ghost try_from_gives = { IsNumbered };

    fn try_from(site: u8) -> Result<LocalSite, NoLocalSite> {
        match site {
            0 => Ok(LocalSite::Let),
            1 => Ok(LocalSite::If),
            2 => Ok(LocalSite::Signal),
            3 => Ok(LocalSite::Rtimer),
            _ => Err(NoLocalSite(site)),
        }
    }
}

impl fmt::Display for LocalSite {
    ghost output = { λ s. Some (name_of s) };

    fn fmt<W: fmt::Write>(&self, f: &mut fmt::Formatter<W>) -> fmt::Result {
        f.write_str(match self {
            LocalSite::Let => "let",
            LocalSite::If => "if",
            LocalSite::Signal => "signal",
            LocalSite::Rtimer => "rtimer",
        })
    }
}

impl fmt::Display for NoLocalSite {
    ghost output = { λ e. Some (codes "no local site has number " ++ decimal e.0) };

    fn fmt<W: fmt::Write>(&self, f: &mut fmt::Formatter<W>) -> fmt::Result {
        let number = self.0;
        write!(f, "no local site has number {number}")
    }
}

impl Error for NoLocalSite {}

impl LocalSite {
    // The reply to a value, if it gives one.
    fn reply(self, value: u16) -> Option<Reply>
        ensures { MatchOption result ((replies_of self value).windows ≡ []) (λ r. (replies_of self value).windows ≡ window_of r ∷ []) }
    {
        match self {
            LocalSite::Let => Some(Reply { age: 0, value }),
            LocalSite::If if value == 0 => None,
            LocalSite::If | LocalSite::Signal => Some(Reply { age: 0, value: 0 }),
            LocalSite::Rtimer => Some(Reply {
                age: u32::from(value),
                value: 0,
            }),
        }
    }
}

// The reply of a site to a value, if it is a local site and gives one.
fn reply_of(site: u8, value: u16) -> Option<Reply>
    ensures { MatchOption result ((handle local site value).windows ≡ []) (λ r. (handle local site value).windows ≡ window_of r ∷ []) }
{
    LocalSite::try_from(site).ok()?.reply(value)
}

// The reply in the window of a number.
fn reply_in(site: u8, value: u16, number: usize) -> Option<Reply>
    ensures { option_map window_of result ≡ entry (handle local site value).windows number }
{
    reply_of(site, value).filter(|_| number == 0)
}

impl Host for Local {
    ghost meaning = { λ _. local };

    ghost laws = { λ _. local_lawful };

    fn knows(&self, site: u8) -> bool {
        LocalSite::try_from(site).is_ok()
    }

    fn window_count(&self, site: u8, value: u16) -> usize {
        usize::from(reply_of(site, value).is_some())
    }

    fn ticks(&self, site: u8, value: u16, number: usize) -> Option<(u32, u32)> {
        reply_in(site, value, number).map(|reply| (reply.age, reply.age))
    }

    fn values(&self, site: u8, value: u16, number: usize) -> Option<(u16, u16)> {
        reply_in(site, value, number).map(|reply| (reply.value, reply.value))
    }

    fn silent(&self, site: u8, value: u16) -> bool {
        LocalSite::try_from(site).is_ok_and(|site| site.reply(value).is_none())
    }
}
