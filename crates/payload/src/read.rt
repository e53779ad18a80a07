// A payload of any kind, from where it starts to its end.
ghost use Rattle.std.specs.Prelude.{◌≡◌, ◌≤◌, length};
ghost use Rattle.answer.specs.Writes.{read_said};
ghost use Rattle.payload.specs.Promise.{LookPayload, ReadPayload};
ghost use Rattle.payload.specs.Inner.{passed_said};

use crate::fill::fill;
use crate::look::look;
use crate::take::read_once;
use crate::{Counts, Cursor, Halt, Payload};
use answer::{Read, Reason, Refusal};
use frame::{ACTION_WIDTH, MESSAGE_WIDTH, PAIR_WIDTH};

// The bytes of a payload that is tried in one pass. An upload and its answer have about half of them; what has more is read twice at once, and not
// up to where the tables of that pass are full, and then from its start.
const SMALL: usize = 128;

// What a pass comes to, as the reader's answer.
fn answered(passed: Result<Cursor, Halt>) -> Result<Read<Counts>, Refusal>
    ensures { read_said result ≡ passed_said passed }
{
    match passed {
        Ok(x) => Ok(Read {
            value: Counts {
                messages: x.messages,
                pairs: x.pairs,
                actions: x.actions,
            },
            used: x.at,
        }),
        Err(halt) => Err(halt.refusal),
    }
}

// What reading the payload that starts at `start` comes to, with tables of such rooms. It writes nothing. Each kind has its own copy of the pass, so
// that it does not ask at each record which kind it is.
pub fn look_payload(
    input: &[u8],
    start: usize,
    kind: Payload,
    rooms: Counts,
) -> Result<Read<Counts>, Refusal>
    ensures { LookPayload kind start input.now rooms result }
{
    if input.len() < start {
        return Err(Reason::TooSoon.at(input.len()));
    }
    match kind {
        Payload::KvList => answered(look(input, start, Payload::KvList, rooms)),
        Payload::Messages => answered(look(input, start, Payload::Messages, rooms)),
        Payload::Actions => answered(look(input, start, Payload::Actions, rooms)),
    }
}

// Reads a payload that starts within the bytes: looks, and then fills.
fn look_and_fill(
    input: &[u8],
    start: usize,
    kind: Payload,
    messages: &mut [u64],
    pairs: &mut [u64],
    actions: &mut [u64],
) -> Result<Read<Counts>, Refusal>
    requires { start ≤ length input.now }
    ensures { ReadPayload kind start input.now result messages.old messages.new pairs.old pairs.new actions.old actions.new }
{
    let rooms = Counts {
        messages: messages.len() / MESSAGE_WIDTH,
        pairs: pairs.len() / PAIR_WIDTH,
        actions: actions.len() / ACTION_WIDTH,
    };
    let passed = look(input, start, kind, rooms);
    if passed.is_ok() {
        fill(input, start, kind, messages, pairs, actions);
    }
    answered(passed)
}

// The same in one pass where it is small.
fn read_within(
    input: &[u8],
    start: usize,
    kind: Payload,
    messages: &mut [u64],
    pairs: &mut [u64],
    actions: &mut [u64],
) -> Result<Read<Counts>, Refusal>
    requires { start ≤ length input.now }
    ensures { ReadPayload kind start input.now result messages.old messages.new pairs.old pairs.new actions.old actions.new }
{
    if SMALL < input.len() - start {
        return look_and_fill(input, start, kind, messages, pairs, actions);
    }
    match read_once(input, start, kind, messages, pairs, actions) {
        Some(read) => Ok(read),
        None => look_and_fill(input, start, kind, messages, pairs, actions),
    }
}

// Reads the payload that starts at `start`, and fills the tables with what it holds.
pub fn read_payload(
    input: &[u8],
    start: usize,
    kind: Payload,
    messages: &mut [u64],
    pairs: &mut [u64],
    actions: &mut [u64],
) -> Result<Read<Counts>, Refusal>
    ensures { ReadPayload kind start input.now result messages.old messages.new pairs.old pairs.new actions.old actions.new }
{
    if input.len() < start {
        return Err(Reason::TooSoon.at(input.len()));
    }
    match kind {
        Payload::KvList => read_within(input, start, Payload::KvList, messages, pairs, actions),
        Payload::Messages => read_within(input, start, Payload::Messages, messages, pairs, actions),
        Payload::Actions => read_within(input, start, Payload::Actions, messages, pairs, actions),
    }
}
