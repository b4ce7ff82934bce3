// A host by which no call ever lapses: each has one window, which has no end.
ghost use Rattle.walks.specs.Endless.{endless, endless_lawful};

use hosts::host::{Host, NO_END};

#[derive(Clone, Copy)]
pub struct Endless;

impl Host for Endless {
    ghost meaning = { λ _. endless };

    ghost laws = { λ _. endless_lawful };

    fn knows(&self, _site: u8) -> bool {
        true
    }

    fn window_count(&self, _site: u8, _value: u16) -> usize {
        1
    }

    fn ticks(&self, _site: u8, _value: u16, number: usize) -> Option<(u32, u32)> {
        (number == 0).then_some((0, NO_END))
    }

    fn values(&self, _site: u8, _value: u16, number: usize) -> Option<(u16, u16)> {
        (number == 0).then_some((0, u16::MAX))
    }

    fn silent(&self, _site: u8, _value: u16) -> bool {
        false
    }
}
