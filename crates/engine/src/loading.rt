// What a run holds when it begins.
ghost use Rattle.std.specs.Prelude.{◌≡◌, ◌≤◌, length, Some, None, MatchResult};
ghost use Rattle.files.specs.Contents.{file_of};
ghost use Rattle.walks.specs.Capacity.{capacity};
ghost use Rattle.walks.specs.Contents.{content};
ghost use Rattle.runs.specs.States as states;
ghost use Rattle.engine.specs.Loading.{Accepted};
ghost use Rattle.engine.specs.Stands.{state_of};

use crate::plain::Plain;
use crate::record::{Record, UNUSED};
use crate::settling::simplify;
use crate::table::Table;
use crate::whole::Whole;
use files::contents::Contents;
use forms::command::Command;
use forms::measure::measured;
use runs::refusal::Refusal;
use walks::buffer::{Buffer, CAPACITY};

// A buffer with bytes for which it has room.
// Kept: a function of its own. No public function of this repository asks anything of its caller, so the list's own
// `extend_from_slice` must be able to refuse; this one, which is private, is told that there is room.
fn buffer_of(bytes: &[u8]) -> Buffer
    requires { length bytes.now ≤ capacity }
    ensures { content result ≡ bytes.now }
{
    let mut buffer = Buffer::new(0);
    buffer.extend_from_slice(bytes).unwrap();
    buffer
}

impl Plain {
    // For a file that was refused: nothing is loaded.
    pub(crate) fn unloaded() -> Plain
        ensures { state_of result ≡ states.unloaded }
    {
        Plain {
            file: None,
            clock: 0,
            form: buffer_of(&[Command::Stop as u8]),
            issued: 0,
            events: Record::new(UNUSED),
            table: Table::new(),
        }
    }

    // For a file that was accepted: it is loaded, and its goal stands, simplified.
    // Kept: fields that are set one by one. A struct with facts in its type takes no `..Plain::unloaded()`.
    pub(crate) fn loaded(file: &[u8]) -> Plain
        requires { Accepted file.now }
        ensures { state_of result ≡ states.begun (file_of file.now) }
    {
        let goal = Contents::new(file).goal();
        let mut plain = Plain::unloaded();
        plain.file = Some(buffer_of(file));
        let mut lengths = [0; CAPACITY];
        let form = measured(goal.as_bytes(), &mut lengths);
        let mut simplified = Buffer::new(0);
        simplify(Whole { form }, &mut simplified);
        plain.form = simplified;
        plain
    }

    // The file that is loaded. Without one every call is refused.
    pub(crate) fn loaded_file(&self) -> Result<&Buffer, Refusal>
        ensures { MatchResult result
            (λ file. self.now.file ≡ Some file.now)
            (λ f. (f ≡ Refusal.NotLoaded) × (self.now.file ≡ None)) }
    {
        self.file.as_ref().ok_or(Refusal::NotLoaded)
    }
}
