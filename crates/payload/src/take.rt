// A payload of a few records, as uploads have them, read in one pass: the records go into tables of this module's own, and from there into the lent
// ones when all of it is accepted.
ghost use Rattle.std.specs.Prelude.{◌≤◌, length};
ghost use Rattle.payload.specs.Promise.{rooms_of};
ghost use Rattle.payload.specs.Inner.{Passes, LeavesAccepted, ReadsOnce};

use crate::fill::store;
use crate::look::{begin, tested};
use crate::next::item;
use crate::{Counts, Cursor, Halt, Payload};
use answer::Read;
use frame::{ACTION_WIDTH, MESSAGE_WIDTH, PAIR_WIDTH};

// Reads a payload and fills the tables on the way. What a refusal leaves in them is not said. It is `look` with a store in each step; one loop for
// both would take the store as a closure, with an invariant of what that left in three tables, and be no shorter.
fn take(
    input: &[u8],
    start: usize,
    kind: Payload,
    messages: &mut [u64],
    pairs: &mut [u64],
    actions: &mut [u64],
) -> Result<Cursor, Halt>
    requires { start ≤ length input.now }
    ensures passes { Passes kind (rooms_of messages.old pairs.old actions.old) start input.now result }
    ensures leaves_accepted { LeavesAccepted kind start input.now messages.old messages.new pairs.old pairs.new actions.old actions.new }
{
    let rooms = Counts {
        messages: messages.len() / MESSAGE_WIDTH,
        pairs: pairs.len() / PAIR_WIDTH,
        actions: actions.len() / ACTION_WIDTH,
    };
    let mut x = begin(start);
    loop {
        let next = match item(input, kind, x) {
            Ok(Some(next)) => next,
            Ok(None) => return Ok(x),
            Err(refusal) => return Err(Halt { refusal, cursor: x }),
        };
        match tested(input, start, rooms, x, next) {
            Ok(y) => {
                store(next, x, messages, pairs, actions);
                x = y;
            },
            Err(refusal) => return Err(Halt { refusal, cursor: x }),
        }
    }
}

// Reads a payload that is small enough for the tables here, and that the lent ones have room for.
pub(crate) fn read_once(
    input: &[u8],
    start: usize,
    kind: Payload,
    messages: &mut [u64],
    pairs: &mut [u64],
    actions: &mut [u64],
) -> Option<Read<Counts>>
    requires { start ≤ length input.now }
    ensures { ReadsOnce kind start input.now result messages.old messages.new pairs.old pairs.new actions.old actions.new }
{
    // Room for two messages, eight pairs and four actions: an upload has one and four, and its answer four.
    let mut own_messages = [0; 2 * MESSAGE_WIDTH];
    let mut own_pairs = [0; 8 * PAIR_WIDTH];
    let mut own_actions = [0; 4 * ACTION_WIDTH];
    let found = take(
        input,
        start,
        kind,
        &mut own_messages,
        &mut own_pairs,
        &mut own_actions,
    );
    let Ok(x) = found else {
        return None;
    };
    if messages.len() / MESSAGE_WIDTH < x.messages {
        return None;
    }
    if pairs.len() / PAIR_WIDTH < x.pairs {
        return None;
    }
    if actions.len() / ACTION_WIDTH < x.actions {
        return None;
    }
    let message_numbers = x.messages * MESSAGE_WIDTH;
    let pair_numbers = x.pairs * PAIR_WIDTH;
    let action_numbers = x.actions * ACTION_WIDTH;
    let _ = frame::put(&own_messages[..message_numbers], messages);
    let _ = frame::put(&own_pairs[..pair_numbers], pairs);
    let _ = frame::put(&own_actions[..action_numbers], actions);
    Some(Read {
        value: Counts {
            messages: x.messages,
            pairs: x.pairs,
            actions: x.actions,
        },
        used: x.at,
    })
}
