// The calls that a C program has, as `include/spop.h` declares them; crate `spop_c` exports them. Each is thin over the call that it wraps,
// and its promise goes through the same definitions.
//
// A call answers a refusal's number, 0 for done, and `at` takes what goes with it: the bytes used or written, after a wait those that are
// missing, or the place. Whatever else is lent changes only after 0.

#![tactic(auto)]

ghost use Rattle.std.specs.Prelude.{◌≡◌, length};
ghost use Rattle.answer.specs.Reason.{number_of};
ghost use Rattle.answer.specs.Writes.{said};
ghost use Rattle.frame.specs.declared.Head.{Head};
ghost use Rattle.frame.specs.Read.{Reading};
ghost use Rattle.payload.specs.Payload.{Contents};
ghost use Rattle.parser.specs.Promise.{frame_said, frame_tells};
ghost use Rattle.spop.specs.Told.{Told, Left};
ghost use Rattle.spop.specs.Inner.{stop_answer};
ghost use Rattle.spop.specs.Values.{record_in, head_numbers};
ghost use Rattle.spop.specs.Promise.{HeadTold, SpopDecodeVarint, SpopSameTextPlain, SpopTypedData, SpopReadPair, SpopReadFrame, SpopReadFrameRecords, SpopReadAgentFrame, SpopReadFrames, SpopNegotiateVersion};
ghost use Rattle.types.specs.Form.{value_answer, length_of};
ghost use Rattle.utf8.specs.Text.{is_utf8, same_text, lossy};
ghost use Rattle.hello.specs.Hello.{frame_size};
ghost use Rattle.answer.specs.Answer.{written};
ghost use Rattle.answer.specs.Order.{in_order};
ghost use Rattle.types.specs.Check.{value_checks};
ghost use Rattle.varint.specs.Number.{number_bytes};
ghost use Rattle.writer.specs.Frame.{head_of, actions_answer, notify_answer, kv_answer};

use answer::{Read, Refusal, WAIT};
use frame::{PAIR_WIDTH, Pair, Side, Stop};
use parser::Frame;
use types::{VALUE_WIDTH, Value};

// What a call answers that is done. C has numbers for its answers.
const DONE: u64 = 0;

pub fn spop_varint_len(n: u64) -> u64
    ensures { result ≡ length (number_bytes n) }
{
    varint::varint_len(n) as u64
}

pub fn spop_encode_varint(n: u64, out: &mut [u8], at: &mut u64) -> u64
    ensures { Left (written (number_bytes n)) result at.new out.old out.new }
{
    let answer = varint::encode_varint(n, out);
    tell(answer, at)
}

pub fn spop_decode_varint(input: &[u8], value: &mut u64, at: &mut u64) -> u64
    ensures { SpopDecodeVarint input.now result at.new value.old value.new }
{
    match varint::decode_varint(input) {
        Ok(read) => {
            *value = read.value;
            *at = read.used as u64;
            DONE
        },
        Err(r) => refuse(r, at),
    }
}

pub fn spop_is_utf8(bytes: &[u8]) -> bool
    ensures { result ≡ is_utf8 bytes.now }
{
    utf8::is_utf8(bytes)
}

pub fn spop_same_text(a: &[u8], b: &[u8]) -> bool
    ensures { result ≡ same_text a.now b.now }
{
    utf8::same_text(a, b)
}

pub fn spop_same_text_plain(
    a: &[u8],
    b: &[u8],
    a_text: &mut [u8],
    b_text: &mut [u8],
    same: &mut bool,
    at: &mut u64,
) -> u64
    ensures { SpopSameTextPlain a.now b.now result at.new same.old same.new a_text.old a_text.new b_text.old b_text.new }
{
    match plain::same_text_plain(a, b, a_text, b_text) {
        Ok(are) => {
            *same = are;
            *at = 0;
            DONE
        },
        Err(r) => refuse(r, at),
    }
}

pub fn spop_lossy_text(bytes: &[u8], out: &mut [u8], at: &mut u64) -> u64
    ensures { Left (written (lossy bytes.now)) result at.new out.old out.new }
{
    let answer = utf8::lossy_text(bytes, out);
    tell(answer, at)
}

pub fn spop_typed_data(input: &[u8], value: &mut [u64; VALUE_WIDTH], at: &mut u64) -> u64
    ensures { SpopTypedData input.now result at.new value.old value.new }
{
    match types::typed_data(input) {
        Ok(read) => {
            *value = read.value.into();
            *at = read.used as u64;
            DONE
        },
        Err(r) => refuse(r, at),
    }
}

pub fn spop_value_len(value: &[u64; VALUE_WIDTH], buffer: &[u8]) -> u64
    ensures { result ≡ length_of (value_answer buffer.now (record_in value.now)) }
{
    types::value_len(Value::from(*value), buffer) as u64
}

pub fn spop_check_value(value: &[u64; VALUE_WIDTH], buffer: &[u8]) -> u64
    ensures { result ≡ in_order (value_checks buffer.now (record_in value.now)) 0 }
{
    match types::check_value(Value::from(*value), buffer) {
        Ok(()) => DONE,
        Err(reason) => reason.into(),
    }
}

pub fn spop_write_value(
    value: &[u64; VALUE_WIDTH],
    buffer: &[u8],
    out: &mut [u8],
    at: &mut u64,
) -> u64
    ensures { Left (value_answer buffer.now (record_in value.now)) result at.new out.old out.new }
{
    let answer = types::write_value(Value::from(*value), buffer, out);
    tell(answer, at)
}

pub fn spop_read_pair(input: &[u8], pair: &mut [u64; PAIR_WIDTH], at: &mut u64) -> u64
    ensures { SpopReadPair input.now result at.new pair.old pair.new }
{
    match payload::read_pair(input) {
        Ok(read) => {
            *pair = read.value.into();
            *at = read.used as u64;
            DONE
        },
        Err(r) => refuse(r, at),
    }
}

pub fn spop_read_frame(
    input: &[u8],
    limit: u32,
    messages: &mut [u64],
    pairs: &mut [u64],
    head: &mut [u64; 6],
    at: &mut u64,
) -> u64
    ensures { SpopReadFrame input.now limit result at.new head.old head.new messages.old messages.new pairs.old pairs.new }
{
    let answer = parser::read_frame(input, limit, messages, pairs);
    tell_side(answer, Side::HAProxy, head, at)
}

// The same with pair records for the pairs' numbers.
pub fn spop_read_frame_records(
    input: &[u8],
    limit: u32,
    messages: &mut [u64],
    pairs: &mut [Pair],
    head: &mut [u64; 6],
    at: &mut u64,
) -> u64
    ensures { SpopReadFrameRecords input.now limit result at.new head.old head.new messages.old messages.new pairs.old pairs.new }
{
    let answer = records::read_frame_records(input, limit, messages, pairs);
    tell_side(answer, Side::HAProxy, head, at)
}

// The same for what agents send.
pub fn spop_read_agent_frame(
    input: &[u8],
    limit: u32,
    pairs: &mut [u64],
    actions: &mut [u64],
    head: &mut [u64; 6],
    at: &mut u64,
) -> u64
    ensures { SpopReadAgentFrame input.now limit result at.new head.old head.new pairs.old pairs.new actions.old actions.new }
{
    let answer = parser::read_agent_frame(input, limit, pairs, actions);
    tell_side(answer, Side::Agents, head, at)
}

// All frames of a receive buffer. It answers what stopped it, so never 0, and `counts` is always set.
pub fn spop_read_frames(
    input: &[u8],
    limit: u32,
    rows: &mut [u64],
    messages: &mut [u64],
    pairs: &mut [u64],
    counts: &mut [u64; 4],
    at: &mut u64,
) -> u64
    ensures { SpopReadFrames input.now limit result at.new counts.new rows.old rows.new messages.old messages.new pairs.old pairs.new }
{
    let read = buffer::read_frames(input, limit, rows, messages, pairs);
    let t = read.totals;
    *counts = [
        t.frames as u64,
        t.messages as u64,
        t.pairs as u64,
        t.bytes as u64,
    ];
    tell_stop(read.stop, at)
}

pub fn spop_write_kv(
    kind: u64,
    fin: bool,
    abort: bool,
    stream_id: u64,
    frame_id: u64,
    limit: u32,
    buffer: &[u8],
    pairs: &[u64],
    pair_count: u64,
    out: &mut [u8],
    at: &mut u64,
) -> u64
    ensures { Left (kv_answer (head_of kind fin abort stream_id frame_id) limit buffer.now pairs.now pair_count) result at.new out.old out.new }
{
    let answer = writer::write_kv(
        kind, fin, abort, stream_id, frame_id, limit, buffer, pairs, pair_count, out,
    );
    tell(answer, at)
}

pub fn spop_write_actions(
    fin: bool,
    abort: bool,
    stream_id: u64,
    frame_id: u64,
    limit: u32,
    buffer: &[u8],
    actions: &[u64],
    action_count: u64,
    out: &mut [u8],
    at: &mut u64,
) -> u64
    ensures { Left (actions_answer (head_of 103 fin abort stream_id frame_id) limit buffer.now actions.now action_count) result at.new out.old out.new }
{
    let answer = writer::write_actions(
        fin,
        abort,
        stream_id,
        frame_id,
        limit,
        buffer,
        actions,
        action_count,
        out,
    );
    tell(answer, at)
}

pub fn spop_write_notify(
    fin: bool,
    abort: bool,
    stream_id: u64,
    frame_id: u64,
    limit: u32,
    buffer: &[u8],
    messages: &[u64],
    message_count: u64,
    pairs: &[u64],
    pair_count: u64,
    out: &mut [u8],
    at: &mut u64,
) -> u64
    ensures { Left (notify_answer (head_of 3 fin abort stream_id frame_id) limit buffer.now messages.now message_count pairs.now pair_count) result at.new out.old out.new }
{
    let answer = writer::write_notify(
        fin,
        abort,
        stream_id,
        frame_id,
        limit,
        buffer,
        messages,
        message_count,
        pairs,
        pair_count,
        out,
    );
    tell(answer, at)
}

pub fn spop_negotiate_max_frame_size(theirs: u32, ours: u32, at: &mut u64) -> u64
    ensures { Told (frame_size theirs ours) result at.new }
{
    match hello::negotiate_max_frame_size(theirs, ours) {
        Ok(n) => {
            *at = n as u64;
            DONE
        },
        Err(r) => refuse(r, at),
    }
}

pub fn spop_negotiate_version(versions: &[u64], version: &mut [u64; 3]) -> bool
    ensures { SpopNegotiateVersion versions.now result version.old version.new }
{
    match hello::negotiate_version(versions) {
        Some(v) => {
            *version = [v.major, v.minor, v.patch];
            true
        },
        None => false,
    }
}

// What any writer answered.
fn tell(answer: Result<usize, Refusal>, at: &mut u64) -> u64
    ensures { Told (said answer) result at.new }
{
    match answer {
        Ok(count) => {
            *at = count as u64;
            DONE
        },
        Err(r) => refuse(r, at),
    }
}

// What the reader of a side's frames answers.
fn tell_side(
    answer: Result<Read<Frame>, Stop>,
    side: Side,
    head: &mut [u64; 6],
    at: &mut u64,
) -> u64
    ensures { (x : Reading (Head × Contents)) → frame_said answer ≡ frame_tells x → HeadTold side x result at.new head.old head.new }
{
    match answer {
        Ok(read) => {
            *head = head_numbers(side, read.value);
            *at = read.used as u64;
            DONE
        },
        Err(stop) => tell_stop(stop, at),
    }
}

// The six numbers of a frame's head. The last two count messages and pairs, or pairs and actions, by the side that sends.
fn head_numbers(side: Side, frame: Frame) -> [u64; 6]
    ensures { result ≡ head_numbers side frame.head frame.counts }
{
    let Frame { head: h, counts } = frame;
    let frame_type = h.frame_type as u64;
    let flags = h.flags as u64;
    let messages = counts.messages as u64;
    let pairs = counts.pairs as u64;
    let actions = counts.actions as u64;
    match side {
        Side::HAProxy => [frame_type, flags, h.stream, h.frame, messages, pairs],
        Side::Agents => [frame_type, flags, h.stream, h.frame, pairs, actions],
    }
}

// Why there is no frame.
fn tell_stop(stop: Stop, at: &mut u64) -> u64
    ensures { Told (stop_answer stop) result at.new }
{
    match stop {
        Stop::Wait(missing) => {
            *at = missing as u64;
            WAIT
        },
        Stop::Refused(r) => refuse(r, at),
    }
}

// Any refusal.
fn refuse(r: Refusal, at: &mut u64) -> u64
    ensures { (result ≡ number_of r.reason) × (at.new ≡ r.place) }
{
    *at = r.place as u64;
    r.reason.into()
}
