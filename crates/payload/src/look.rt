// The first pass over a payload: it finds the answer, and writes nothing.
ghost use Rattle.std.specs.Prelude.{◌≡◌, List, ℕ, ◌+◌, ◌≤◌, length};
ghost use Rattle.answer.specs.Table.{some};
ghost use Rattle.utf8.specs.Text.{same_text};
ghost use Rattle.types.specs.Form.{part};
ghost use Rattle.frame.specs.Records.{key_of};
ghost use Rattle.payload.specs.declared.Item.TheVariants as i;
ghost use Rattle.payload.specs.Payload.{Contents};
ghost use Rattle.payload.specs.Item.{one};
ghost use Rattle.payload.specs.Inner.{began, Low, KeyInside, after_item, Run, tests, tested_said, Passes};

use crate::next::item;
use crate::pair::pair_at;
use crate::{Counts, Cursor, Halt, Item, Payload};
use answer::{Read, Reason, Refusal};
use frame::Pair;

// Where a pass begins.
pub(crate) fn begin(start: usize) -> Cursor
    ensures { result ≡ began start }
{
    Cursor {
        at: start,
        ..Cursor::default()
    }
}

// Whether one of the pairs from `start` to `end` has this key. The next pair stands where this one ends, so there is no range to go over.
fn key_met(input: &[u8], start: usize, end: usize, key: &[u8]) -> bool
    requires { end ≤ length input.now }
    ensures { (pairs : List Pair) → Run input.now start pairs end → result ≡ some (λ q. same_text (key_of input.now q) key.now) pairs }
{
    let mut at = start;
    while at < end {
        let Ok(Read { value: pair, used }) = pair_at(input, at) else {
            return false;
        };
        let from = pair.start as usize;
        let to = from + pair.len as usize;
        if utf8::same_text(&input[from..to], key) {
            return true;
        }
        at = used;
    }
    false
}

// Where the pass goes on behind an item.
pub(crate) fn after(x: Cursor, item: Item) -> Cursor
    requires { Low x }
    ensures { result ≡ after_item x item }
{
    let mut y = x;
    match item {
        Item::Pair { pair: _, end } => {
            y.at = end;
            y.pairs = x.pairs + 1;
            if 0 < x.left {
                y.left = x.left - 1;
            }
        },
        Item::Message { message, end } => {
            y.at = end;
            y.left = message.count as usize;
            y.messages = x.messages + 1;
        },
        Item::Action { action: _, end } => {
            y.at = end;
            y.actions = x.actions + 1;
        },
    }
    y
}

// The tests of a pair that ends at `end`: in a KV list, where no argument is due, its key is to be new; and then there is to be room for it.
fn pair_tested(
    input: &[u8],
    start: usize,
    rooms: Counts,
    x: Cursor,
    pair: Pair,
    end: usize,
) -> Result<Cursor, Refusal>
    requires at_in_bounds { x.at ≤ length input.now }
    requires len_in_bounds { pair.start + pair.len ≤ length input.now }
    requires low { Low x }
    ensures { (c : Contents) → (x.left ≡ 0 → Run input.now start c.pairs x.at) → tested_said result ≡ tests rooms input.now x c (one (i.Pair pair end)) }
{
    if x.left == 0 {
        let from = pair.start as usize;
        let to = from + pair.len as usize;
        if key_met(input, start, x.at, &input[from..to]) {
            return Err(Reason::MetTwice.at(end));
        }
    }
    if rooms.pairs <= x.pairs {
        return Err(Reason::TableFull.at(end));
    }
    Ok(after(x, Item::Pair { pair, end }))
}

// Where the pass goes on behind what comes next, where its tests hold with such rooms.
pub(crate) fn tested(
    input: &[u8],
    start: usize,
    rooms: Counts,
    x: Cursor,
    item: Item,
) -> Result<Cursor, Refusal>
    requires at_in_bounds { x.at ≤ length input.now }
    requires key_inside { KeyInside input.now item }
    requires low { Low x }
    ensures { (c : Contents) → ((p : Pair) (end : ℕ) → item ≡ i.Pair p end → x.left ≡ 0 → Run input.now start c.pairs x.at) → tested_said result ≡ tests rooms input.now x c (one item) }
{
    match item {
        Item::Pair { pair, end } => pair_tested(input, start, rooms, x, pair, end),
        Item::Message { message: _, end } => {
            if rooms.messages <= x.messages {
                return Err(Reason::TableFull.at(end));
            }
            Ok(after(x, item))
        },
        Item::Action { action: _, end } => {
            if rooms.actions <= x.actions {
                return Err(Reason::TableFull.at(end));
            }
            Ok(after(x, item))
        },
    }
}

// What reading the payload that starts at `start` comes to: how far the pass came, or why it was refused and where it stood then. An item says
// where the next one stands; and each case is an arm, since behind a `while let` nothing would say that there is no item.
pub(crate) fn look(input: &[u8], start: usize, kind: Payload, rooms: Counts) -> Result<Cursor, Halt>
    requires { start ≤ length input.now }
    ensures { Passes kind rooms start input.now result }
{
    let mut x = begin(start);
    loop {
        let next = match item(input, kind, x) {
            Ok(Some(next)) => next,
            Ok(None) => return Ok(x),
            Err(refusal) => return Err(Halt { refusal, cursor: x }),
        };
        match tested(input, start, rooms, x, next) {
            Ok(y) => x = y,
            Err(refusal) => return Err(Halt { refusal, cursor: x }),
        }
    }
}
