// What is told of a judgement or of a response, in numbers.
ghost use Rattle.std.specs.Prelude.{◌≡◌};
ghost use Rattle.controllers.specs.Told.{verdict_on, shortened};

use verdicts::reason::Reason;

// The number of a refusal and its place. Both are 0 where something was accepted.
#[repr(C)]
#[derive(Clone, Copy, Debug, Default)]
pub struct Verdict {
    pub number: u32,
    pub place: u32,
}

// An acceptance.
pub const ACCEPTED: Verdict = Verdict {
    number: 0,
    place: 0,
};

// That no call was made.
pub const NO_CALL: Verdict = Verdict {
    number: u32::MAX,
    place: 0,
};

impl Verdict {
    // On a judgement on an input, or a response to a call. A place beyond 32 bits is told as the greatest number of them; no fault that
    // is found and no refusal of a call here has one, as the contracts that rest on this one say.
    pub fn of<R: Reason>(judged: &Result<(), R>) -> Verdict
        ensures { result ≡ shortened (verdict_on R.told judged.now) }
    {
        match judged {
            Ok(()) => ACCEPTED,
            Err(reason) => Verdict {
                number: u32::from(reason.number()),
                place: u32::try_from(reason.place()).unwrap_or(u32::MAX),
            },
        }
    }
}
