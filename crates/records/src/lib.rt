// The frame reader with a table of pair records, where `parser` has one of numbers.
//
// The public call has no `requires`: it does its own refusing.

#![tactic(auto)]

ghost use Rattle.payload.specs.Payload.{payload};
ghost use Rattle.payload.specs.Inner.{Accepted};
ghost use Rattle.records.specs.Promise.{rooms_for, FillsRecords, ReadFrameRecords};

use answer::Read;
use frame::{MESSAGE_WIDTH, Pair, Stop};
use parser::Frame;
use payload::{Counts, Cursor, Item, Payload};

// Fills in the messages and the pairs of a payload that is accepted, which starts at `start`. An item says where the next one stands. The cursor
// goes on as `after` in payload has it, which is private there since it has a `requires`.
fn fill(input: &[u8], start: usize, kind: Payload, messages: &mut [u64], pairs: &mut [Pair])
    requires { Accepted kind (rooms_for messages.old pairs.old) start input.now }
    ensures { FillsRecords (payload kind (rooms_for messages.old pairs.old) start input.now) messages.old messages.new pairs.old pairs.new }
{
    let mut x = Cursor {
        at: start,
        ..Cursor::default()
    };
    loop {
        match payload::next_item(input, kind, x) {
            Ok(Some(Item::Pair { pair, end })) => {
                pairs[x.pairs] = pair;
                x = Cursor {
                    at: end,
                    left: x.left.saturating_sub(1),
                    pairs: x.pairs + 1,
                    ..x
                };
            },
            Ok(Some(Item::Message { message, end })) => {
                let from = x.messages * MESSAGE_WIDTH;
                let _ = frame::put(
                    &<[u64; MESSAGE_WIDTH]>::from(message),
                    &mut messages[from..],
                );
                x = Cursor {
                    at: end,
                    left: message.count as usize,
                    messages: x.messages + 1,
                    ..x
                };
            },
            Ok(None) => return,
            // Never: it is accepted, with no room for actions.
            Ok(Some(Item::Action { action: _, end: _ })) => return,
            Err(_) => return,
        }
    }
}

// Reads the frame at the front of `input`, as `read_frame` does, into a table of pair records: looks at it, and then fills.
pub fn read_frame_records(
    input: &[u8],
    limit: u32,
    messages: &mut [u64],
    pairs: &mut [Pair],
) -> Result<Read<Frame>, Stop>
    ensures { ReadFrameRecords input.now limit result messages.old messages.new pairs.old pairs.new }
{
    let rooms = Counts {
        messages: messages.len() / MESSAGE_WIDTH,
        pairs: pairs.len(),
        actions: 0,
    };
    let read = parser::look_frame(input, limit, rooms)?;
    let whole = &input[..read.used];
    let kind = parser::payload_of(read.value.head.frame_type);
    fill(whole, walker::kv_of(whole).at, kind, messages, pairs);
    Ok(read)
}
