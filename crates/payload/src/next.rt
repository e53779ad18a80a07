// The step that every pass over a payload takes: what comes next.
ghost use Rattle.std.specs.Prelude.{◌≡◌, ◌≤◌, ◌<◌, length};
ghost use Rattle.payload.specs.declared.Item.TheVariants as i;
ghost use Rattle.payload.specs.Pair.{pair_from};
ghost use Rattle.payload.specs.Action.{action_from};
ghost use Rattle.payload.specs.Payload.{message_from};
ghost use Rattle.payload.specs.Item.{next_said, item_of};
ghost use Rattle.payload.specs.Promise.{NextItem};

use crate::action::action_at;
use crate::pair::{behind, pair_at};
use crate::{Cursor, Item, Payload};
use answer::{Read, Reason, Refusal};
use frame::Message;

// The pair that stands at `at`.
fn pair_item(input: &[u8], at: usize) -> Result<Option<Item>, Refusal>
    requires { at ≤ length input.now }
    ensures { next_said result ≡ item_of i.Pair (pair_from at input.now) }
{
    let Read {
        value: pair,
        used: end,
    } = pair_at(input, at)?;
    Ok(Some(Item::Pair { pair, end }))
}

// The message that stands at `at`, behind so many pairs: its name, and its count byte.
fn message_item(input: &[u8], at: usize, first: usize) -> Result<Option<Item>, Refusal>
    requires { at ≤ length input.now }
    ensures { next_said result ≡ item_of i.Message (message_from first at input.now) }
{
    let Read {
        value: name,
        used: end,
    } = behind(types::read_string(&input[at..]), at)?;
    let Some(&count) = input.get(end) else {
        return Err(Reason::TooSoon.at(end));
    };
    Ok(Some(Item::Message {
        message: Message {
            start: (at + name.start) as u64,
            len: name.len as u64,
            first: first as u64,
            count: u64::from(count),
        },
        end: end + 1,
    }))
}

// The action that stands at `at`.
fn action_item(input: &[u8], at: usize) -> Result<Option<Item>, Refusal>
    requires { at ≤ length input.now }
    ensures { next_said result ≡ item_of i.Action (action_from at input.now) }
{
    let Read {
        value: action,
        used: end,
    } = action_at(input, at)?;
    Ok(Some(Item::Action { action, end }))
}

// What comes next, where the place lies in the bytes, and none at their end.
pub(crate) fn item(input: &[u8], kind: Payload, x: Cursor) -> Result<Option<Item>, Refusal>
    requires { x.at ≤ length input.now }
    ensures { NextItem kind input.now x result }
{
    if 0 < x.left {
        return pair_item(input, x.at);
    }
    if input.len() <= x.at {
        return Ok(None);
    }
    match kind {
        Payload::KvList => pair_item(input, x.at),
        Payload::Messages => message_item(input, x.at, x.pairs),
        Payload::Actions => action_item(input, x.at),
    }
}

// The same for every cursor: behind the bytes they have ended too soon where a pair is to come, and else it is the end.
pub fn next_item(input: &[u8], kind: Payload, x: Cursor) -> Result<Option<Item>, Refusal>
    ensures { NextItem kind input.now x result }
{
    if x.at <= input.len() {
        return item(input, kind, x);
    }
    if 0 < x.left {
        return Err(Reason::TooSoon.at(x.at));
    }
    Ok(None)
}
