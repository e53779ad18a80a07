// NOTIFY frames (SPOE.txt, section 3.2.6): what a bench sends that plays HAProxy.
//
// The messages are checked first, then the pairs that are their arguments, and then all is written.
ghost use Rattle.std.specs.Prelude.{◌≡◌, ◌+◌, ◌≤◌, ◌<◌, ◌^◌, eqb, length};
ghost use Rattle.answer.specs.Answer.{written, leaves};
ghost use Rattle.answer.specs.Writes.{Writes};
ghost use Rattle.answer.specs.Order.{Checked};
ghost use Rattle.frame.specs.Records.{message_at};
ghost use Rattle.writer.specs.Message.{name_bytes, message_bytes, message_checks, run_start};
ghost use Rattle.writer.specs.Frame.{notify_answer, head_of};
ghost use Rattle.writer.specs.Inner.{message_order, Ready};

use crate::pair::{Pairs, put_text};
use crate::records::{Measure, Put, Records, check_records, count_in, put_records, write_frame};
use crate::{cap, fin_alone, head_of};
use answer::{Reason, Refusal};
use frame::{FrameType, MESSAGE_WIDTH, Message, PAIR_WIDTH, record_at};

// The most arguments that a count byte can say.
const MOST_ARGUMENTS: u64 = 255;

// Whether a run of `count` pairs from `first` on ends at `place`. Their sum may pass 64 bits, so it is not made.
fn ends_at(first: u64, count: u64, place: u64) -> bool
    ensures { result ≡ eqb place (first + count) }
{
    first.checked_add(count) == Some(place)
}

// Whether a run starts where the one of the message before it ended, that of the first message at pair 0.
fn starts_at(messages: &[u64], i: usize, first: u64) -> bool
    ensures { result ≡ eqb first (run_start messages.now i) }
{
    match i.checked_sub(1) {
        Some(before) => {
            let message: Message = record_at(messages, before);
            ends_at(message.first, message.count, first)
        },
        None => first == 0,
    }
}

// Writes a message's name and its count byte, where there is room.
fn put_name(message: Message, buffer: &[u8], out: &mut [u8]) -> usize
    requires len_in_bounds { message.start + message.len ≤ length buffer.now }
    requires count_bound { message.count < 256 }
    requires message_in_bounds { length (name_bytes buffer.now message) ≤ length out.old }
    ensures value { result ≡ length (name_bytes buffer.now message) }
    ensures out_after { out.new ≡ leaves (written (name_bytes buffer.now message)) out.old }
{
    let n = put_text(message.start, message.len, buffer, out);
    out[n] = message.count as u8;
    n + 1
}

// Writes a message where there is room: its name and count, and its arguments in the tail behind them.
fn put_message(message: Message, pairs: &Pairs, out: &mut [u8]) -> usize
    requires ready { Ready pairs.now.buffer.now pairs.now.table.now message }
    requires end_in_bounds { message.first + message.count < 2 ^ 64 }
    requires message_in_bounds { length (message_bytes pairs.now.buffer.now pairs.now.table.now message) ≤ length out.old }
    ensures value { result ≡ length (message_bytes pairs.now.buffer.now pairs.now.table.now message) }
    ensures out_after { out.new ≡ leaves (written (message_bytes pairs.now.buffer.now pairs.now.table.now message)) out.old }
{
    let first = message.first as usize;
    let end = first + message.count as usize;
    let n = put_name(message, pairs.buffer, out);
    n + put_records(pairs, first, end, &mut out[n..])
}

// The messages of a table, and the pairs that are their arguments.
#[derive(Clone, Copy)]
struct Messages<'a> {
    table: &'a [u64],
    count: usize,
    pairs: Pairs<'a>,
    pair_count: u64,
}

impl Messages<'_> {
    // What message i is refused with.
    #[tactic(auto, unfolding(answer::specs::Order::in_order))]
    fn check(&self, i: usize, message: Message) -> Result<(), Reason>
        requires below { i < usize.MAX }
        requires is { message ≡ message_at self.now.table.now i }
        ensures { Checked (message_order self.now.pairs.buffer.now self.now.pair_count self.now.table.now self.now.count i) result }
    {
        if !starts_at(self.table, i, message.first) {
            return Err(Reason::NotWritable);
        }
        let last = i + 1 == self.count;
        if last && !ends_at(message.first, message.count, self.pair_count) {
            return Err(Reason::NotWritable);
        }
        if MOST_ARGUMENTS < message.count {
            return Err(Reason::TooMany);
        }
        types::check_string(message.start, message.len, self.pairs.buffer)
    }
}

impl Records for Messages<'_> {
    type Record = Message;

    ghost at = { λ s i. message_at s.table.now i };
}

impl Measure for Messages<'_> {
    ghost checks = { λ s i. message_order s.pairs.buffer.now s.pair_count s.table.now s.count i };

    ghost measured = { λ s m. name_bytes s.pairs.buffer.now m };

    fn measure(&self, i: usize, most: u32) -> Result<u64, Reason> {
        let message = record_at(self.table, i);
        self.check(i, message)?;
        let beside = varint::varint_len(message.len) as u64 + 1;
        Ok(cap(beside + cap(message.len, most), most))
    }
}

impl Put for Messages<'_> {
    ghost bytes = { λ s m. message_bytes s.pairs.buffer.now s.pairs.table.now m };

    // where its run ends is a number of 64 bits
    ghost Ready = { λ s i.
        let m = message_at s.table.now i in
        Ready s.pairs.buffer.now s.pairs.table.now m × (m.first + m.count < 2 ^ 64) };

    fn put(&self, i: usize, out: &mut [u8]) -> usize {
        put_message(record_at(self.table, i), &self.pairs, out)
    }
}

// Writes a NOTIFY frame at the front of `out`: its head, and its messages in their order, each with its arguments in theirs.
pub fn write_notify(
    fin: bool,
    abort: bool,
    stream_id: u64,
    frame_id: u64,
    limit: u32,
    buffer: &[u8],
    messages: &[u64],
    message_count: u64,
    pairs: &[u64],
    pair_count: u64,
    out: &mut [u8],
) -> Result<usize, Refusal>
    ensures { Writes (notify_answer (head_of 3 fin abort stream_id frame_id) limit buffer.now messages.now message_count pairs.now pair_count) result out.old out.new }
{
    if !fin_alone(fin, abort) {
        return Err(Reason::NotWritable.at(0));
    }
    let count = count_in(messages, MESSAGE_WIDTH, message_count)?;
    let argument_count = count_in(pairs, PAIR_WIDTH, pair_count)?;
    if count == 0 && argument_count != 0 {
        return Err(Reason::NotWritable.at(0));
    }
    let arguments = Pairs {
        table: pairs,
        buffer,
    };
    let list = Messages {
        table: messages,
        count,
        pairs: arguments,
        pair_count,
    };
    let named = check_records(&list, count, limit)?;
    let given = check_records(&arguments, argument_count, limit)?;
    let head = head_of(FrameType::Notify, fin, abort, stream_id, frame_id);
    write_frame(head, cap(named + given, limit), limit, &list, count, out)
}
