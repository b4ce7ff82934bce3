// What a transition shows.

// A call of a site with a value, an inner step, or the publication of a value.
#[derive(Clone, Copy, PartialEq, Eq, Debug)]
pub enum Act {
    Called { site: u8, value: u16 },
    Inner,
    Out(u16),
}
