// Pending calls and their bytes.
ghost use Rattle.std.specs.Prelude.{◌≡◌, MatchOption};
ghost use Rattle.orc.specs.Expressions.{pending, bytes as form_bytes};
ghost use Rattle.forms.specs.Pendings.{pending_of, call_at, CallStands};

use crate::command::Command;
use formats::operands::Operand;

// A pending call: its ticket, its site, the value it was called with, and the clock of the call.
#[derive(Clone, Copy, PartialEq, Eq, Debug)]
pub struct Pending {
    pub ticket: u32,
    pub site: u8,
    pub value: u16,
    pub clock: u32,
}

impl Pending {
    // Its form: the command, and each number with the highest byte first.
    // Kept: byte by byte. What joins arrays gives a `Vec`, and a library has no heap.
    #[tactic(auto, unfolding(orc::specs::Expressions::bytes))]
    pub fn to_bytes(self) -> [u8; 12]
        ensures { result ≡ form_bytes (pending self.ticket self.site self.value self.clock) }
    {
        let [k0, k1, k2, k3] = self.ticket.to_be_bytes();
        let [v0, v1] = self.value.to_be_bytes();
        let [c0, c1, c2, c3] = self.clock.to_be_bytes();
        [
            Command::Pending as u8,
            k0,
            k1,
            k2,
            k3,
            self.site,
            v0,
            v1,
            c0,
            c1,
            c2,
            c3,
        ]
    }

    // The pending call whose command stands at an offset, if one does with all of its operands.
    pub fn read(bytes: &[u8], at: usize) -> Option<Pending>
        ensures { MatchOption result (CallStands bytes.now at → ⊥) (λ p. CallStands bytes.now at × (pending_of p ≡ call_at bytes.now at)) }
    {
        if u8::at(bytes, at)? != Command::Pending as u8 {
            return None;
        }
        Some(Pending {
            ticket: u32::at(bytes, at + 1)?,
            site: u8::at(bytes, at + 5)?,
            value: u16::at(bytes, at + 6)?,
            clock: u32::at(bytes, at + 8)?,
        })
    }
}
