// The reasons for which an input or a call is refused.
ghost use Rattle.std.specs.Prelude.{◌≡◌};
ghost use Rattle.verdicts.specs.Verdicts.{Told, told_by};

// What is told of a reason: the number that a mechanic looks up, what it is about (an offset, a count, a ticket, a clock or a
// size), and its name in words.
#[derive(Clone, Copy, Debug)]
pub struct Notice {
    pub number: u8,
    pub place: usize,
    pub name: &'static str,
}

// A reason for a refusal.
pub trait Reason {
    // All that is told of it.
    ghost told: { Self → Told };

    fn notice(&self) -> Notice
        ensures { told_by result ≡ told self.now };

    // The number that a mechanic looks up.
    final fn number(&self) -> u8
        ensures { result ≡ (told self.now).number }
    {
        self.notice().number
    }

    // What it is about: an offset, a count, a ticket, a clock or a size.
    final fn place(&self) -> usize
        ensures { result ≡ (told self.now).place }
    {
        self.notice().place
    }

    // Its name in words.
    final fn name(&self) -> &'static str
        ensures { result.now ≡ (told self.now).name }
    {
        self.notice().name
    }
}
