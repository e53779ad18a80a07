// Lines on frames, read into lent tables and written into a lent output: whether the port answers what stands there.
ghost use Rattle.std.specs.Prelude.{◌≤◌, IfOk};

use crate::fields::{BYTES, Fields, LineError, NUMBERS};
use crate::verdict::Expected;
use answer::Read;
use frame::{MESSAGE_WIDTH, PAIR_WIDTH, Stop};
use parser::Frame;

// What a table is full of before a frame is read.
const OLD: u64 = 0xA5A5_A5A5_A5A5_A5A5;

// How many numbers a table has at most: those of six messages, or of four pairs.
const TABLE: usize = 24;

// How many bytes an output has at most.
const OUTPUT: usize = 64;

// INPUT LIMIT, how many numbers the table of messages has and how many that of pairs, ANSWER AT TYPE FLAGS STREAM FRAME MESSAGES PAIRS, and
// the numbers of these messages and pairs. Behind them the tables, which are full of OLD, are to be as they were.
pub(crate) fn read_line(mut fields: Fields) -> Result<bool, LineError> {
    let mut input = [0; BYTES];
    let input = fields.bytes(&mut input)?;
    let limit = u32::try_from(fields.number()?)?;
    let message_room = usize::try_from(fields.number()?)?;
    let pair_room = usize::try_from(fields.number()?)?;
    let expected = fields.expected()?;
    let want: [u64; 6] = fields.numbers()?;
    let mut want_messages = [0; NUMBERS];
    let want_messages = fields.records(want[4], MESSAGE_WIDTH, &mut want_messages)?;
    let mut want_pairs = [0; NUMBERS];
    let want_pairs = fields.records(want[5], PAIR_WIDTH, &mut want_pairs)?;
    fields.end()?;
    let mut messages = [OLD; TABLE];
    let mut pairs = [OLD; TABLE];
    let lent_messages = messages.get_mut(..message_room).ok_or(LineError::Unread)?;
    let lent_pairs = pairs.get_mut(..pair_room).ok_or(LineError::Unread)?;
    let told = match parser::read_frame(input, limit, lent_messages, lent_pairs) {
        Ok(
            Read {
                value: Frame { head, counts },
                used,
            },
        ) => {
            expected.is_done(used)
                && want
                    == [
                        u64::from(head.frame_type),
                        u64::from(head.flags),
                        head.stream,
                        head.frame,
                        counts.messages as u64,
                        counts.pairs as u64,
                    ]
        },
        Err(Stop::Wait(missing)) => expected.is_wait(missing) && want == [0; 6],
        Err(Stop::Refused(r)) => expected.is_refused(r) && want == [0; 6],
    };
    Ok(told && holds(&messages, want_messages) && holds(&pairs, want_pairs))
}

// Whether a table has these numbers in front, and OLD behind them.
fn holds(table: &[u64], numbers: &[u64]) -> bool {
    table
        .strip_prefix(numbers)
        .is_some_and(|rest| rest.iter().all(|&n| n == OLD))
}

// What every line on a frame that is written has in front.
#[derive(Clone, Copy)]
struct Call {
    fin: bool,
    abort: bool,
    stream: u64,
    frame: u64,
    limit: u32,
    room: usize,
    expected: Expected,
}

// FIN ABORT STREAM FRAME LIMIT, how many bytes the output has, of those that there are, ANSWER AT
fn call_of(fields: &mut Fields, most: usize) -> Result<Call, LineError>
    ensures { IfOk result (λ c. c.room ≤ most) }
{
    let call = Call {
        fin: fields.flag()?,
        abort: fields.flag()?,
        stream: fields.number()?,
        frame: fields.number()?,
        limit: u32::try_from(fields.number()?)?,
        room: usize::try_from(fields.number()?)?,
        expected: fields.expected()?,
    };
    if most < call.room {
        return Err(LineError::Unread);
    }
    Ok(call)
}

// BUFFER BYTES, what call_of has, TYPE COUNT, and the numbers of the pairs
pub(crate) fn kv_line(mut fields: Fields) -> Result<bool, LineError> {
    let mut buffer = [0; BYTES];
    let buffer = fields.bytes(&mut buffer)?;
    let mut bytes = [0; BYTES];
    let bytes = fields.bytes(&mut bytes)?;
    let c = call_of(&mut fields, OUTPUT)?;
    let frame_type = fields.number()?;
    let count = fields.number()?;
    let mut pairs = [0; NUMBERS];
    let pairs = fields.rest(&mut pairs)?;
    let mut out = [0; OUTPUT];
    let lent = &mut out[..c.room];
    let answer = writer::write_kv(
        frame_type, c.fin, c.abort, c.stream, c.frame, c.limit, buffer, pairs, count, lent,
    );
    Ok(c.expected.is_written(answer, &out, bytes))
}

// BUFFER BYTES, what call_of has, COUNT, and the numbers of the actions
pub(crate) fn ack_line(mut fields: Fields) -> Result<bool, LineError> {
    let mut buffer = [0; BYTES];
    let buffer = fields.bytes(&mut buffer)?;
    let mut bytes = [0; BYTES];
    let bytes = fields.bytes(&mut bytes)?;
    let c = call_of(&mut fields, OUTPUT)?;
    let count = fields.number()?;
    let mut actions = [0; NUMBERS];
    let actions = fields.rest(&mut actions)?;
    let mut out = [0; OUTPUT];
    let lent = &mut out[..c.room];
    let answer = writer::write_actions(
        c.fin, c.abort, c.stream, c.frame, c.limit, buffer, actions, count, lent,
    );
    Ok(c.expected.is_written(answer, &out, bytes))
}

// BUFFER BYTES, what call_of has, MESSAGES PAIRS, and the numbers of the messages and of the pairs
pub(crate) fn notify_line(mut fields: Fields) -> Result<bool, LineError> {
    let mut buffer = [0; BYTES];
    let buffer = fields.bytes(&mut buffer)?;
    let mut bytes = [0; BYTES];
    let bytes = fields.bytes(&mut bytes)?;
    let c = call_of(&mut fields, OUTPUT)?;
    let message_count = fields.number()?;
    let pair_count = fields.number()?;
    let mut messages = [0; NUMBERS];
    let messages = fields.records(message_count, MESSAGE_WIDTH, &mut messages)?;
    let mut pairs = [0; NUMBERS];
    let pairs = fields.rest(&mut pairs)?;
    let mut out = [0; OUTPUT];
    let lent = &mut out[..c.room];
    let answer = writer::write_notify(
        c.fin,
        c.abort,
        c.stream,
        c.frame,
        c.limit,
        buffer,
        messages,
        message_count,
        pairs,
        pair_count,
        lent,
    );
    Ok(c.expected.is_written(answer, &out, bytes))
}
