// How much room a form takes once it is written.
ghost use Rattle.std.specs.Prelude.{◌≡◌, ◌+◌, ◌<◌, length, MatchOption, MatchResult};
ghost use Rattle.orc.specs.Expressions.{size};
ghost use Rattle.forms.specs.Heads.{expression, headed, Longer};
ghost use Rattle.walks.specs.Capacity.{capacity};
ghost use Rattle.walks.specs.Contents.{content, HasRoom};
ghost use Rattle.walks.specs.Rooms.{own_width, head_size};

use crate::buffer::{Buffer, CAPACITY};
use fixed::full::Full;
use forms::form::{Form, Head};

// The width of a head's command with its operands.
fn own_width(head: Head) -> usize
    ensures { result ≡ own_width head.entry }
{
    head.command().width()
}

// The head of a form, with the size of the whole.
// Kept: beside `Form::head`. What it adds, of which three functions here make use, is promised once, and costs no code.
pub(crate) fn head_of<'a>(form: Form<'a>) -> Head<'a>
    ensures expression { headed result ≡ expression form.entry }
    ensures longer { Longer (length form.entry.bytes.now) result }
    ensures sized { size (expression form.entry) ≡ head_size result }
{
    form.head()
}

// The room that a form leaves, if it fits into the room that there is.
fn room_behind(form: Form, room: usize) -> Option<usize>
    ensures { MatchOption result (room < size (expression form.entry)) (λ left. left + size (expression form.entry) ≡ room) }
{
    let head = head_of(form);
    let room = room.checked_sub(own_width(head))?;
    let Some((f, g)) = head.parts() else {
        return Some(room);
    };
    let room = room_behind(f, room)?;
    room_behind(g, room)
}

// Refuses a form that cannot be written behind what a buffer holds.
pub(crate) fn check_room(out: &Buffer, form: Form) -> Result<(), Full>
    ensures { MatchResult result (λ _. HasRoom out.now (size (expression form.entry))) (λ _. capacity < length (content out.now) + size (expression form.entry)) }
{
    let room = CAPACITY - out.len();
    match form.size() {
        Some(size) if size <= room => Ok(()),
        Some(_) => Err(Full),
        // Where the bytes are no form, what is missing is read as stop, and takes room too.
        None => {
            room_behind(form, room).ok_or(Full)?;
            Ok(())
        }
    }
}
