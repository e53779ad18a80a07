// ACK frames: actions on variables.
ghost use Rattle.std.specs.Prelude.{◌≡◌, [], ◌∷◌, ◌≤◌, length};
ghost use Rattle.answer.specs.Answer.{written, leaves};
ghost use Rattle.answer.specs.Writes.{Writes};
ghost use Rattle.answer.specs.Inner.{Passes};
ghost use Rattle.types.specs.Promise.{record_of};
ghost use Rattle.frame.specs.Records.{action_at};
ghost use Rattle.writer.specs.Action.{no_value, action_writable, action_bytes, action_checks};
ghost use Rattle.writer.specs.Frame.{head_of, actions_answer};
ghost use Rattle.writer.specs.Inner.{action_order, Measures};

use crate::pair::{measure_pair, put_pair, put_text};
use crate::records::{Measure, Put, Records, check_records, count_in, write_frame};
use crate::{cap, fin_alone, head_of};
use answer::{Reason, Refusal};
use frame::{ACTION_WIDTH, Action, FrameType, SET_VAR, UNSET_VAR, record_at};
use types::Value;

// Whether a value's four numbers are 0.
fn no_value(value: Value) -> bool
    ensures { result ≡ no_value (record_of value) }
{
    value.kind == 0 && value.a == 0 && value.b == 0 && value.flags == 0
}

// Whether an action's own numbers lie in their fields.
#[tactic(auto, unfolding(crate::specs::Action::action_writable))]
fn action_writable(action: Action) -> bool
    ensures { result ≡ action_writable action }
{
    if 4 < action.scope {
        return false;
    }
    match action.verb {
        SET_VAR => true,
        UNSET_VAR => no_value(action.pair.value),
        _ => false,
    }
}

// What an action is refused with, or how many bytes its written form has, as far as it matters.
fn measure_action(action: Action, buffer: &[u8], most: u32) -> Result<u64, Reason>
    ensures { Measures (action_checks buffer.now action) most (action_bytes buffer.now action) result }
{
    if !action_writable(action) {
        return Err(Reason::NotWritable);
    }
    let pair_len = measure_pair(action.pair, buffer, most)?;
    if action.verb == SET_VAR {
        return Ok(cap(3 + pair_len, most));
    }
    let name = action.pair.len;
    Ok(cap(3 + (varint::varint_len(name) as u64 + name), most))
}

// Writes three bytes: by three stores, since the library's copy is a call, which was measured slower.
fn put_three(a: u8, b: u8, c: u8, out: &mut [u8])
    requires { 3 ≤ length out.old }
    ensures { out.new ≡ leaves (written (a ∷ b ∷ c ∷ [])) out.old }
{
    out[0] = a;
    out[1] = b;
    out[2] = c;
}

// Writes an action where there is room.
fn put_action(action: Action, buffer: &[u8], out: &mut [u8]) -> usize
    requires passes { Passes (action_checks buffer.now action) }
    requires action_in_bounds { length (action_bytes buffer.now action) ≤ length out.old }
    ensures value { result ≡ length (action_bytes buffer.now action) }
    ensures out_after { out.new ≡ leaves (written (action_bytes buffer.now action)) out.old }
{
    if action.verb == SET_VAR {
        put_three(1, 3, action.scope as u8, out);
        return 3 + put_pair(action.pair, buffer, &mut out[3..]);
    }
    put_three(2, 2, action.scope as u8, out);
    3 + put_text(action.pair.start, action.pair.len, buffer, &mut out[3..])
}

// The actions of a table.
#[derive(Clone, Copy)]
struct Actions<'a> {
    table: &'a [u64],
    buffer: &'a [u8],
}

impl Records for Actions<'_> {
    type Record = Action;

    ghost at = { λ s i. action_at s.table.now i };
}

impl Measure for Actions<'_> {
    ghost checks = { λ s i. action_order s.buffer.now s.table.now i };

    ghost measured = { λ s x. action_bytes s.buffer.now x };

    fn measure(&self, i: usize, most: u32) -> Result<u64, Reason> {
        measure_action(record_at(self.table, i), self.buffer, most)
    }
}

impl Put for Actions<'_> {
    ghost bytes = { λ s x. action_bytes s.buffer.now x };

    ghost Ready = { λ s i. Passes (action_order s.buffer.now s.table.now i) };

    fn put(&self, i: usize, out: &mut [u8]) -> usize {
        put_action(record_at(self.table, i), self.buffer, out)
    }
}

// Writes an ACK frame at the front of `out`: its head, and its actions in their order.
pub fn write_actions(
    fin: bool,
    abort: bool,
    stream_id: u64,
    frame_id: u64,
    limit: u32,
    buffer: &[u8],
    actions: &[u64],
    action_count: u64,
    out: &mut [u8],
) -> Result<usize, Refusal>
    ensures { Writes (actions_answer (head_of 103 fin abort stream_id frame_id) limit buffer.now actions.now action_count) result out.old out.new }
{
    if !fin_alone(fin, abort) {
        return Err(Reason::NotWritable.at(0));
    }
    let count = count_in(actions, ACTION_WIDTH, action_count)?;
    let list = Actions {
        table: actions,
        buffer,
    };
    let len = check_records(&list, count, limit)?;
    let head = head_of(FrameType::Ack, fin, abort, stream_id, frame_id);
    write_frame(head, len, limit, &list, count, out)
}
