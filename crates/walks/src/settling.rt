// Forms simplified as they are written, and pending calls ended that no window reaches.
ghost use Rattle.std.specs.Prelude.{◌≡◌, ℕ, ◌+◌, ◌<◌, ◌≤◌, false, List, ◌++◌, length, take};
ghost use Rattle.std.specs.List.{between};
ghost use Rattle.orc.specs.Expressions.{Expression, parallel, pruning, bytes as form_bytes, size};
ghost use Rattle.orc.specs.Simplified.{is_stop, parallel_of, pruning_of, simplified};
ghost use Rattle.orc.specs.Calls.{lapsed};
ghost use Rattle.forms.specs.Heads.{expression};
ghost use Rattle.orc.specs.Variables.{free};
ghost use Rattle.walks.specs.Contents.{content, HasRoom, Writes};
ghost use Rattle.walks.specs.Sets.{FreeIn};

use crate::ages::within_reach;
use crate::buffer::{Buffer, add};
use crate::endless::Endless;
use crate::heads::put_call;
use crate::rooms::{check_room, head_of};
use crate::variables::{COUNT, Variables};
use fixed::full::Full;
use forms::command::Command;
use forms::form::{Form, Head};
use hosts::host::Host;

// Whether the form that stands last in a buffer, from an offset on, is stop: no other begins with its command.
fn stops_from(out: &Buffer, at: usize) -> bool
    requires { at < length (content out.now) }
    ensures { (o : List ℕ) (e : Expression) → length o ≡ at → content out.now ≡ o ++ form_bytes e → result ≡ is_stop e }
{
    out.as_slice()[at] == Command::Stop as u8
}

// Of the bytes from `start` on, keeps those from `from` up to `end` only.
// Kept: offsets, here and below. Each of the three asks for other ones, and would take a struct of them apart in its first line.
fn keep_part(out: &mut Buffer, start: usize, from: usize, end: usize)
    requires { (start ≤ from) × (from ≤ end) × (end ≤ length (content out.old)) }
    ensures content { content out.new ≡ take start (content out.old) ++ between from end (content out.old) }
    ensures len { length (content out.new) + from ≡ start + end }
{
    out.truncate(end);
    out.remove_range(start, from);
}

// Simplifies the parallel that stands last in a buffer, from `start` on, with its right part from `middle` on: with a stop on
// the right it becomes its left part. Its left part is not stop.
fn close_parallel(out: &mut Buffer, start: usize, middle: usize)
    requires { (start + 1 < middle) × (middle < length (content out.old)) }
    ensures content { (o : List ℕ) (f g : Expression) → length o ≡ start → length o + 1 + size f ≡ middle → is_stop f ≡ false → content out.old ≡ o ++ form_bytes (parallel f g) → content out.new ≡ o ++ form_bytes (parallel_of f g) }
    ensures within { (start < length (content out.new)) × (length (content out.new) ≤ length (content out.old)) }
{
    if stops_from(out, middle) {
        keep_part(out, start, start + Command::Parallel.width(), middle);
    }
}

// Simplifies the pruning that stands last in a buffer, likewise: with a stop on the right it becomes its left part, if its
// variable is not free there. The variables that are free in its left part are known.
// Kept: beside `close_parallel`, not one function with it. Only here the left part is asked about its variable.
fn close_pruning(out: &mut Buffer, variable: u8, known: Variables, start: usize, middle: usize)
    requires { (start + 2 < middle) × (middle < length (content out.old)) }
    ensures content { (o : List ℕ) (f g : Expression) → length o ≡ start → length o + 2 + size f ≡ middle → FreeIn known.bits f → content out.old ≡ o ++ form_bytes (pruning variable f g) → content out.new ≡ o ++ form_bytes (pruning_of variable f g) }
    ensures within { (start < length (content out.new)) × (length (content out.new) ≤ length (content out.old)) }
{
    if !stops_from(out, middle) {
        return;
    }
    let from = start + Command::Pruning.width();
    let left = Form::new(&out.as_slice()[from..middle]);
    if !is_free(variable, known, left) {
        keep_part(out, start, from, middle);
    }
}

// Whether a variable stands free in a form, of whose free variables those below 32 are known.
fn is_free(variable: u8, known: Variables, form: Form) -> bool
    ensures { FreeIn known.bits (expression form.entry) → result ≡ free variable (expression form.entry) }
{
    if variable < COUNT {
        known.holds(variable)
    } else {
        form.is_free(variable)
    }
}

// Writes a form for which there is room, lapsed at a tick and simplified, and tells which variables are free in what is written.
fn settle<H: Host>(out: &mut Buffer, host: &H, form: Form, tick: u64) -> Variables
    requires { HasRoom out.old (size (expression form)) }
    ensures content { content out.new ≡ content out.old ++ form_bytes (simplified (lapsed (H.Host.meaning host.now) tick (expression form.entry))) }
    ensures within { (length (content out.old) < length (content out.new)) × (length (content out.new) ≤ length (content out.old) + size (expression form.entry)) }
    ensures free { FreeIn result.bits (simplified (lapsed (H.Host.meaning host.now) tick (expression form.entry))) }
{
    let start = out.len();
    match head_of(form) {
        Head::Stop => {
            add(out, &[Command::Stop as u8]);
            Variables::none()
        }
        Head::SiteCall { site, parameter } => {
            put_call(out, Command::SiteCall, site, parameter);
            Variables::of(parameter)
        }
        Head::DefinitionCall { number, parameter } => {
            put_call(out, Command::DefinitionCall, number, parameter);
            Variables::of(parameter)
        }
        Head::Parallel(f, g) => {
            add(out, &[Command::Parallel as u8]);
            let left = settle(out, host, f, tick);
            if stops_from(out, start + Command::Parallel.width()) {
                out.truncate(start);
                return settle(out, host, g, tick);
            }
            let middle = out.len();
            let right = settle(out, host, g, tick);
            close_parallel(out, start, middle);
            left.and(right)
        }
        Head::Sequential(x, f, g) => {
            add(out, &[Command::Sequential as u8, x]);
            let left = settle(out, host, f, tick);
            if stops_from(out, start + Command::Sequential.width()) {
                out.truncate(start);
                add(out, &[Command::Stop as u8]);
                return Variables::none();
            }
            let right = settle(out, host, g, tick);
            left.and(right.without(x))
        }
        Head::Pruning(x, f, g) => {
            add(out, &[Command::Pruning as u8, x]);
            let left = settle(out, host, f, tick);
            let middle = out.len();
            let right = settle(out, host, g, tick);
            close_pruning(out, x, left, start, middle);
            left.without(x).and(right)
        }
        Head::Pending(call) => {
            if within_reach(host, call, tick) {
                add(out, &call.to_bytes());
                return Variables::none();
            }
            add(out, &[Command::Stop as u8]);
            Variables::none()
        }
    }
}

// Writes a form lapsed at a tick and simplified: each pending call that no window reaches becomes stop, and then, from the
// innermost parts outward, a parallel with a stop on either side becomes its other part, a sequential with a stop on the left
// becomes stop, and a pruning with a stop on the right becomes its left part, if its variable is not free there. The room
// that is asked for is that of the form as it is.
pub fn settle_into<H: Host>(host: &H, form: Form, tick: u64, out: &mut Buffer) -> Result<(), Full>
    ensures { Writes out.old out.new result (size (expression form.entry)) (form_bytes (simplified (lapsed (H.Host.meaning host.now) tick (expression form.entry)))) }
{
    check_room(out, form)?;
    settle(out, host, form, tick);
    Ok(())
}

// Writes a form simplified, with every pending call left. The room that is asked for is that of the form as it is.
pub fn simplify_into(form: Form, out: &mut Buffer) -> Result<(), Full>
    ensures { Writes out.old out.new result (size (expression form.entry)) (form_bytes (simplified (expression form.entry))) }
{
    settle_into(&Endless, form, 0, out)
}
