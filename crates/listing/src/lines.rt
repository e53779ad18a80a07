// The lines of a frame: each is checked, and written where there is room.
ghost use Rattle.std.specs.Prelude.{◌≡◌, true, ◌∷◌};
ghost use Rattle.answer.specs.Answer.{written};
ghost use Rattle.answer.specs.Order.{Checked};
ghost use Rattle.answer.specs.Writes.{Writes};
ghost use Rattle.types.specs.Form.{inside, part};
ghost use Rattle.types.specs.Promise.{record_of};
ghost use Rattle.listing.specs.Lines.{value_text, frame_line, end_line};
ghost use Rattle.listing.specs.Check.{message_answer, pair_line_checks, pair_answer, is_action, action_answer};
ghost use Rattle.listing.specs.Inner.{Listed, text_of};

use crate::parts::{Part, write_line};
use answer::{Reason, Refusal};
use frame::{Action, Head, Message, Pair, SET_VAR, UNSET_VAR};
use types::Value;

// Writes the line of a frame: its index, type, stream and id, and how many bytes it takes.
#[tactic(auto, unfolding(answer::specs::Table::joined, crate::specs::Lines::filled, crate::specs::Lines::frame_line))]
pub fn write_frame_line(
    index: u64,
    head: Head,
    bytes: u64,
    out: &mut [u8],
) -> Result<usize, Refusal>
    ensures { Writes (written (frame_line index head bytes)) result out.old out.new }
{
    write_line(
        &[
            Part::Words(b"frame "),
            Part::Decimal(index),
            Part::Words(b" type "),
            Part::Decimal(head.frame_type as u64),
            Part::Words(b" stream "),
            Part::Decimal(head.stream),
            Part::Words(b" id "),
            Part::Decimal(head.frame),
            Part::Words(b" bytes "),
            Part::Decimal(bytes),
            Part::Words(b"\n"),
        ],
        out,
    )
}

// Writes the last line: the bytes used by accepted frames, the answer that stopped it, and the missing count or the place.
#[tactic(auto, unfolding(answer::specs::Table::joined, crate::specs::Lines::filled, crate::specs::Lines::end_line))]
pub fn write_end_line(used: u64, number: u64, at: u64, out: &mut [u8]) -> Result<usize, Refusal>
    ensures { Writes (written (end_line used number at)) result out.old out.new }
{
    write_line(
        &[
            Part::Words(b"end "),
            Part::Decimal(used),
            Part::Words(b" "),
            Part::Decimal(number),
            Part::Words(b" "),
            Part::Decimal(at),
            Part::Words(b"\n"),
        ],
        out,
    )
}

// The len bytes of the frame from start on.
fn part(start: u64, len: u64, frame: &[u8]) -> &[u8]
    requires { inside frame.now start len ≡ true }
    ensures { result.now ≡ part frame.now start len }
{
    let from = start as usize;
    let to = from + len as usize;
    &frame[from..to]
}

// Writes the line of a message of the frame: its index, its name's bytes, and how many arguments it has.
#[tactic(auto, unfolding(answer::specs::Order::in_order, answer::specs::Table::joined, crate::specs::Lines::filled, crate::specs::Lines::message_line))]
pub fn write_message_line(
    index: u64,
    frame: &[u8],
    message: Message,
    out: &mut [u8],
) -> Result<usize, Refusal>
    ensures { Writes (message_answer index frame.now message) result out.old out.new }
{
    if !types::part_inside(message.start, message.len, frame) {
        return Err(Reason::Outside.at(0));
    }
    write_line(
        &[
            Part::Words(b"message "),
            Part::Decimal(index),
            Part::Words(b" name "),
            Part::Shown(part(message.start, message.len, frame)),
            Part::Words(b" args "),
            Part::Decimal(message.count),
            Part::Words(b"\n"),
        ],
        out,
    )
}

// Writes the line of a pair of the frame: its index, its key's bytes, and its value's kind and text.
pub fn write_pair_line(
    index: u64,
    frame: &[u8],
    pair: Pair,
    out: &mut [u8],
) -> Result<usize, Refusal>
    ensures { Writes (pair_answer index frame.now pair) result out.old out.new }
{
    if let Err(reason) = check_pair(pair, frame) {
        return Err(reason.at(0));
    }
    write_line(
        &[
            Part::Words(b"pair "),
            Part::Decimal(index),
            Part::Words(b" key "),
            Part::Shown(part(pair.start, pair.len, frame)),
            Part::Words(b" kind "),
            Part::Decimal(pair.value.kind),
            Part::Words(b" value "),
            value_text(pair.value, frame),
            Part::Words(b"\n"),
        ],
        out,
    )
}

// What a pair is refused with.
#[tactic(auto, unfolding(answer::specs::Order::in_order))]
fn check_pair(pair: Pair, frame: &[u8]) -> Result<(), Reason>
    ensures { Checked (pair_line_checks frame.now pair) result }
{
    if !types::writable(pair.value) {
        return Err(Reason::NotWritable);
    }
    if !types::part_inside(pair.start, pair.len, frame) {
        return Err(Reason::Outside);
    }
    if !types::in_range(pair.value, frame) {
        return Err(Reason::Outside);
    }
    Ok(())
}

// The text of a value.
#[tactic(auto, unfolding(crate::specs::Lines::value_text, types::specs::Value::shape))]
fn value_text<'a>(value: Value, frame: &'a [u8]) -> Part<'a>
    requires { Listed frame.now value }
    ensures { text_of result ≡ value_text frame.now (record_of value) }
{
    match value.kind {
        0 => Part::Words(b"-"),
        2 | 4 => Part::Signed(value.a),
        1 | 3 | 5 => Part::Decimal(value.a),
        _ => Part::Shown(part(value.a, value.b, frame)),
    }
}

// Writes the line of an action of the frame: its index, what it does, its scope, its variable's name, and what it sets it to.
pub fn write_action_line(
    index: u64,
    frame: &[u8],
    action: Action,
    out: &mut [u8],
) -> Result<usize, Refusal>
    ensures { Writes (action_answer index frame.now action) result out.old out.new }
{
    if let Err(reason) = check_action(action, frame) {
        return Err(reason.at(0));
    }
    let pair = action.pair;
    let name = part(pair.start, pair.len, frame);
    if action.verb == SET_VAR {
        return write_line(
            &[
                Part::Words(b"action "),
                Part::Decimal(index),
                Part::Words(b" set scope "),
                Part::Decimal(action.scope),
                Part::Words(b" name "),
                Part::Shown(name),
                Part::Words(b" kind "),
                Part::Decimal(pair.value.kind),
                Part::Words(b" value "),
                value_text(pair.value, frame),
                Part::Words(b"\n"),
            ],
            out,
        );
    }
    write_line(
        &[
            Part::Words(b"action "),
            Part::Decimal(index),
            Part::Words(b" unset scope "),
            Part::Decimal(action.scope),
            Part::Words(b" name "),
            Part::Shown(name),
            Part::Words(b"\n"),
        ],
        out,
    )
}

// What an action is refused with.
#[tactic(auto, unfolding(answer::specs::Order::in_order))]
fn check_action(action: Action, frame: &[u8]) -> Result<(), Reason>
    ensures { Checked ((14, is_action action) ∷ pair_line_checks frame.now action.pair) result }
{
    if !is_action(action) {
        return Err(Reason::NotWritable);
    }
    check_pair(action.pair, frame)
}

// Whether it is a set or an unset, of a scope that there is. What an unset does not have must not be lost in its line.
fn is_action(action: Action) -> bool
    ensures { result ≡ is_action action }
{
    action.scope <= 4
        && match action.verb {
            SET_VAR => true,
            UNSET_VAR => action.pair.value.kind == 0 && action.pair.value.flags == 0,
            _ => false,
        }
}
