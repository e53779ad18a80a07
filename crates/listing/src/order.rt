// The lines of a frame in their order, where its records stand in two tables: each message before its own arguments. And those of an
// ACK, one for each action of a table.
ghost use Rattle.std.specs.Prelude.{◌≡◌};
ghost use Rattle.answer.specs.Writes.{Writes};
ghost use Rattle.frame.specs.Records.{message_width, pair_width, action_width, message_at, pair_at, action_at};
ghost use Rattle.listing.specs.Check.{message_answer, pair_answer, action_answer};
ghost use Rattle.listing.specs.Order.{pair_next, behind_pair, behind_message, in_table, line, coming, Comes};

use crate::lines::{write_action_line, write_message_line, write_pair_line};
use crate::{Line, Place};
use answer::{Reason, Refusal};
use frame::{ACTION_WIDTH, MESSAGE_WIDTH, Message, PAIR_WIDTH, record_at};

// Writes the line that comes at a place, of a frame with `count` messages and `total` pairs in its tables. The place of the first is all 0.
#[tactic(auto, unfolding(crate::specs::Order::coming))]
pub fn write_next_line(
    frame: &[u8],
    messages: &[u64],
    count: usize,
    pairs: &[u64],
    total: usize,
    place: Place,
    out: &mut [u8],
) -> Result<Option<Line>, Refusal>
    ensures { Comes (coming frame.now messages.now count pairs.now total place) result out.old out.new }
{
    if is_pair_next(count, total, place) {
        return write_pair_at(frame, pairs, place, out);
    }
    if place.messages < count {
        return write_message_at(frame, messages, place, out);
    }
    Ok(None)
}

// Whether a pair is next.
fn is_pair_next(count: usize, total: usize, place: Place) -> bool
    ensures { result ≡ pair_next count total place }
{
    place.pairs < total && (0 < place.left || count <= place.messages)
}

// Writes the line of the pair at a place.
fn write_pair_at(
    frame: &[u8],
    pairs: &[u64],
    place: Place,
    out: &mut [u8],
) -> Result<Option<Line>, Refusal>
    ensures { Comes (line (in_table pair_width pair_at pair_answer frame.now pairs.now place.pairs) (behind_pair place)) result out.old out.new }
{
    let k = place.pairs;
    if pairs.len() / PAIR_WIDTH <= k {
        return Err(Reason::Outside.at(0));
    }
    let len = write_pair_line(k as u64, frame, record_at(pairs, k), out)?;
    Ok(Some(Line {
        len,
        place: Place {
            pairs: k + 1,
            left: place.left.saturating_sub(1),
            ..place
        },
    }))
}

// Writes the line of the message at a place.
fn write_message_at(
    frame: &[u8],
    messages: &[u64],
    place: Place,
    out: &mut [u8],
) -> Result<Option<Line>, Refusal>
    ensures { Comes (line (in_table message_width message_at message_answer frame.now messages.now place.messages) (behind_message place (message_at messages.now place.messages).count)) result out.old out.new }
{
    let i = place.messages;
    if messages.len() / MESSAGE_WIDTH <= i {
        return Err(Reason::Outside.at(0));
    }
    let message: Message = record_at(messages, i);
    let len = write_message_line(i as u64, frame, message, out)?;
    Ok(Some(Line {
        len,
        place: Place {
            messages: i + 1,
            left: message.count,
            ..place
        },
    }))
}

// Writes the line of action k of a table.
pub fn write_action_at(
    frame: &[u8],
    actions: &[u64],
    k: usize,
    out: &mut [u8],
) -> Result<usize, Refusal>
    ensures { Writes (in_table action_width action_at action_answer frame.now actions.now k) result out.old out.new }
{
    if actions.len() / ACTION_WIDTH <= k {
        return Err(Reason::Outside.at(0));
    }
    write_action_line(k as u64, frame, record_at(actions, k), out)
}
