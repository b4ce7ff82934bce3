// Stretches of the bytes of a form.
ghost use Rattle.std.specs.Prelude.{◌≡◌, ◌+◌, ◌^◌, ◌<◌, ◌≤◌};

// Where a stretch begins and where it ends.
#[derive(Clone, Copy, PartialEq, Eq, Debug)]
pub struct Stretch {
    pub at: usize,
    pub end: usize,
    pub ghost in_order: { at ≤ end },
}

impl Stretch {
    ghost use Rattle.places.specs.Frames.{further};

    // A stretch of a part, as one of the whole, in which the part begins so many bytes further on.
    pub(crate) fn shifted(self, by: usize) -> Stretch
        requires { by + self.end < 2 ^ 64 }
        ensures { result ≡ further by self }
    {
        Stretch {
            at: by + self.at,
            end: by + self.end,
        }
    }
}
