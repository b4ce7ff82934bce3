// Two hosts side by side.
ghost use Rattle.hosts.specs.Meanings.{pair_meaning};
ghost use Rattle.hosts.specs.Laws.{pair_lawful};

use crate::host::Host;

// Sites below the split are the first's. The others, less the split, are the second's.
#[derive(Clone, Copy)]
pub struct Pair<A, B> {
    pub first: A,
    pub second: B,
    pub split: u8,
}

// Kept: the same match in each method. An enum of both sides, or two closures for each question, would be longer.
impl<A: Host, B: Host> Host for Pair<A, B> {
    ghost meaning = { λ p. pair_meaning (A.Host.meaning p.first) (B.Host.meaning p.second) p.split };

    ghost laws = { λ p. pair_lawful (A.Host.meaning p.first) (B.Host.meaning p.second) p.split (A.Host.laws p.first) (B.Host.laws p.second) };

    fn knows(&self, site: u8) -> bool {
        match site.checked_sub(self.split) {
            None => self.first.knows(site),
            Some(offset) => self.second.knows(offset),
        }
    }

    fn window_count(&self, site: u8, value: u16) -> usize {
        match site.checked_sub(self.split) {
            None => self.first.window_count(site, value),
            Some(offset) => self.second.window_count(offset, value),
        }
    }

    fn ticks(&self, site: u8, value: u16, number: usize) -> Option<(u32, u32)> {
        match site.checked_sub(self.split) {
            None => self.first.ticks(site, value, number),
            Some(offset) => self.second.ticks(offset, value, number),
        }
    }

    fn values(&self, site: u8, value: u16, number: usize) -> Option<(u16, u16)> {
        match site.checked_sub(self.split) {
            None => self.first.values(site, value, number),
            Some(offset) => self.second.values(offset, value, number),
        }
    }

    fn silent(&self, site: u8, value: u16) -> bool {
        match site.checked_sub(self.split) {
            None => self.first.silent(site, value),
            Some(offset) => self.second.silent(offset, value),
        }
    }
}
