// The second pass over a payload that is accepted: it fills the tables, and asks nothing again.
ghost use Rattle.std.specs.Prelude.{◌≡◌, true, false, ◌≤◌, length};
ghost use Rattle.answer.specs.Answer.{written, leaves};
ghost use Rattle.payload.specs.Promise.{rooms_of};
ghost use Rattle.payload.specs.Inner.{Low, Fits, Stores, Accepted, Leaves};

use crate::look::{after, begin};
use crate::next::item;
use crate::{Cursor, Item, Payload};
use frame::{ACTION_WIDTH, MESSAGE_WIDTH, PAIR_WIDTH};

// Puts the numbers of a record to the front of a table that has room for it, which `frame::put` would test.
fn put(numbers: &[u64], table: &mut [u64])
    requires { length numbers.now ≤ length table.old }
    ensures { table.new ≡ leaves (written numbers.now) table.old }
{
    for (i, number) in numbers.iter().enumerate() {
        table[i] = *number;
    }
}

// Writes the numbers of what comes next behind those of the records that were met.
pub(crate) fn store(
    item: Item,
    x: Cursor,
    messages: &mut [u64],
    pairs: &mut [u64],
    actions: &mut [u64],
)
    requires { Fits item x messages.old pairs.old actions.old }
    ensures { Stores item x messages.old messages.new pairs.old pairs.new actions.old actions.new }
{
    match item {
        Item::Pair { pair, end: _ } => {
            let from = x.pairs * PAIR_WIDTH;
            put(&<[u64; PAIR_WIDTH]>::from(pair), &mut pairs[from..]);
        },
        Item::Message { message, end: _ } => {
            let from = x.messages * MESSAGE_WIDTH;
            put(
                &<[u64; MESSAGE_WIDTH]>::from(message),
                &mut messages[from..],
            );
        },
        Item::Action { action, end: _ } => {
            let from = x.actions * ACTION_WIDTH;
            put(&<[u64; ACTION_WIDTH]>::from(action), &mut actions[from..]);
        },
    }
}

// Fills in a payload that is accepted, which starts at `start`. An item says where the next one stands, as in `look`.
pub(crate) fn fill(
    input: &[u8],
    start: usize,
    kind: Payload,
    messages: &mut [u64],
    pairs: &mut [u64],
    actions: &mut [u64],
)
    requires start_in_bounds { start ≤ length input.now }
    requires accepted { Accepted kind (rooms_of messages.old pairs.old actions.old) start input.now }
    ensures { Leaves kind start input.now messages.old messages.new pairs.old pairs.new actions.old actions.new }
{
    let mut x = begin(start);
    loop {
        match item(input, kind, x) {
            Ok(Some(next)) => {
                store(next, x, messages, pairs, actions);
                x = after(x, next);
            },
            Ok(None) => return,
            // Never: it is accepted.
            Err(_) => return,
        }
    }
}
