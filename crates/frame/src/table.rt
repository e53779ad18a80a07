// Records of a table, read from it and put into it.
ghost use Rattle.std.specs.Prelude.{◌≡◌, ◌≤◌, ℕ, List, length};
ghost use Rattle.answer.specs.Answer.{written, leaves};
ghost use Rattle.frame.specs.Records.{message_at, message_numbers, pair_at, pair_numbers, action_at, action_numbers};
ghost use Rattle.frame.specs.Laws.{RecordLaws, message_laws, pair_laws, action_laws};
ghost use Rattle.answer.specs.Writes.{Writes};

use crate::{ACTION_WIDTH, Action, MESSAGE_WIDTH, Message, PAIR_WIDTH, Pair};
use answer::{Reason, Refusal};
use types::{VALUE_WIDTH, Value};

// A type of record, which a table has as N numbers.
pub trait Record<const N: usize>: Copy + Default + From<[u64; N]> {
    // The record at an index of a table.
    ghost record_at: { List ℕ → ℕ → Self };

    ghost laws: { RecordLaws N Self.from_gives Self.is_default record_at };
}

// Record i of a table: the default one, which has no number but 0, where the table does not have it.
pub fn record_at<const N: usize, R: Record<N>>(table: &[u64], i: usize) -> R
    ensures { result ≡ R.record_at table.now i }
{
    match table.as_chunks::<N>().0.get(i) {
        Some(numbers) => R::from(*numbers),
        None => R::default(),
    }
}

impl Record<MESSAGE_WIDTH> for Message {
    ghost record_at = { message_at };

    ghost laws = { message_laws };
}

impl From<[u64; MESSAGE_WIDTH]> for Message {
    ghost from_gives = { λ numbers message. message_numbers message ≡ numbers };

    fn from(numbers: [u64; MESSAGE_WIDTH]) -> Message {
        let [start, len, first, count] = numbers;
        Message {
            start,
            len,
            first,
            count,
        }
    }
}

impl From<Message> for [u64; MESSAGE_WIDTH] {
    ghost from_gives = { λ message numbers. numbers ≡ message_numbers message };

    fn from(message: Message) -> [u64; MESSAGE_WIDTH] {
        [message.start, message.len, message.first, message.count]
    }
}

impl Record<PAIR_WIDTH> for Pair {
    ghost record_at = { pair_at };

    ghost laws = { pair_laws };
}

impl From<[u64; PAIR_WIDTH]> for Pair {
    ghost from_gives = { λ numbers pair. pair_numbers pair ≡ numbers };

    fn from(numbers: [u64; PAIR_WIDTH]) -> Pair {
        let [start, len, kind, a, b, flags] = numbers;
        Pair {
            start,
            len,
            value: Value::from([kind, a, b, flags]),
        }
    }
}

impl From<Pair> for [u64; PAIR_WIDTH] {
    ghost from_gives = { λ pair numbers. numbers ≡ pair_numbers pair };

    fn from(pair: Pair) -> [u64; PAIR_WIDTH] {
        let [kind, a, b, flags] = <[u64; VALUE_WIDTH]>::from(pair.value);
        [pair.start, pair.len, kind, a, b, flags]
    }
}

impl Record<ACTION_WIDTH> for Action {
    ghost record_at = { action_at };

    ghost laws = { action_laws };
}

impl From<[u64; ACTION_WIDTH]> for Action {
    ghost from_gives = { λ numbers action. action_numbers action ≡ numbers };

    fn from(numbers: [u64; ACTION_WIDTH]) -> Action {
        let [verb, scope, start, len, kind, a, b, flags] = numbers;
        Action {
            verb,
            scope,
            pair: Pair::from([start, len, kind, a, b, flags]),
        }
    }
}

impl From<Action> for [u64; ACTION_WIDTH] {
    ghost from_gives = { λ action numbers. numbers ≡ action_numbers action };

    fn from(action: Action) -> [u64; ACTION_WIDTH] {
        let [start, len, kind, a, b, flags] = <[u64; PAIR_WIDTH]>::from(action.pair);
        [action.verb, action.scope, start, len, kind, a, b, flags]
    }
}

// Copies all numbers to the front of a table that has room for them. `copy_from_slice` would have the library need `memmove`.
fn copy(numbers: &[u64], table: &mut [u64])
    requires { length numbers.now ≤ length table.old }
    ensures { table.new ≡ leaves (written numbers.now) table.old }
{
    for (i, number) in numbers.iter().enumerate() {
        table[i] = *number;
    }
}

// Puts numbers to the front of a table, where they fit: those of a record, or of several.
pub fn put(numbers: &[u64], table: &mut [u64]) -> Result<usize, Refusal>
    ensures { Writes (written numbers.now) result table.old table.new }
{
    let n = numbers.len();
    if table.len() < n {
        return Err(Reason::NoRoom.at(0));
    }
    copy(numbers, table);
    Ok(n)
}
