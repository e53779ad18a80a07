// The calls of crate `spop` under their C names, as `include/spop.h` declares them: the static library that C, Rust and Python link.
// A crate is a library or a static library and not both, so each call here is the one of that name, with its promise.
#![tactic(auto)]

ghost use Rattle.std.specs.Prelude.{◌≡◌, length};
ghost use Rattle.spop.specs.Told.{Told, Left};
ghost use Rattle.spop.specs.Values.{record_in};
ghost use Rattle.spop.specs.Promise.{SpopDecodeVarint, SpopSameTextPlain, SpopTypedData, SpopReadPair, SpopReadFrame, SpopReadFrameRecords, SpopReadAgentFrame, SpopReadFrames, SpopNegotiateVersion};
ghost use Rattle.types.specs.Form.{value_answer, length_of};
ghost use Rattle.utf8.specs.Text.{is_utf8, same_text, lossy};
ghost use Rattle.hello.specs.Hello.{frame_size};
ghost use Rattle.answer.specs.Answer.{written};
ghost use Rattle.answer.specs.Order.{in_order};
ghost use Rattle.types.specs.Check.{value_checks};
ghost use Rattle.varint.specs.Number.{number_bytes};
ghost use Rattle.writer.specs.Frame.{head_of, actions_answer, notify_answer, kv_answer};

use frame::{PAIR_WIDTH, Pair};
use types::VALUE_WIDTH;

#[unsafe(no_mangle)]
pub extern "C" fn spop_varint_len(n: u64) -> u64
    ensures { result ≡ length (number_bytes n) }
{
    spop::spop_varint_len(n)
}

#[unsafe(no_mangle)]
pub extern "C" fn spop_encode_varint(n: u64, out: &mut [u8], at: &mut u64) -> u64
    ensures { Left (written (number_bytes n)) result at.new out.old out.new }
{
    spop::spop_encode_varint(n, out, at)
}

#[unsafe(no_mangle)]
pub extern "C" fn spop_decode_varint(input: &[u8], value: &mut u64, at: &mut u64) -> u64
    ensures { SpopDecodeVarint input.now result at.new value.old value.new }
{
    spop::spop_decode_varint(input, value, at)
}

#[unsafe(no_mangle)]
pub extern "C" fn spop_is_utf8(bytes: &[u8]) -> bool
    ensures { result ≡ is_utf8 bytes.now }
{
    spop::spop_is_utf8(bytes)
}

#[unsafe(no_mangle)]
pub extern "C" fn spop_same_text(a: &[u8], b: &[u8]) -> bool
    ensures { result ≡ same_text a.now b.now }
{
    spop::spop_same_text(a, b)
}

#[unsafe(no_mangle)]
pub extern "C" fn spop_same_text_plain(
    a: &[u8],
    b: &[u8],
    a_text: &mut [u8],
    b_text: &mut [u8],
    same: &mut bool,
    at: &mut u64,
) -> u64
    ensures { SpopSameTextPlain a.now b.now result at.new same.old same.new a_text.old a_text.new b_text.old b_text.new }
{
    spop::spop_same_text_plain(a, b, a_text, b_text, same, at)
}

#[unsafe(no_mangle)]
pub extern "C" fn spop_lossy_text(bytes: &[u8], out: &mut [u8], at: &mut u64) -> u64
    ensures { Left (written (lossy bytes.now)) result at.new out.old out.new }
{
    spop::spop_lossy_text(bytes, out, at)
}

#[unsafe(no_mangle)]
pub extern "C" fn spop_typed_data(input: &[u8], value: &mut [u64; VALUE_WIDTH], at: &mut u64) -> u64
    ensures { SpopTypedData input.now result at.new value.old value.new }
{
    spop::spop_typed_data(input, value, at)
}

#[unsafe(no_mangle)]
pub extern "C" fn spop_value_len(value: &[u64; VALUE_WIDTH], buffer: &[u8]) -> u64
    ensures { result ≡ length_of (value_answer buffer.now (record_in value.now)) }
{
    spop::spop_value_len(value, buffer)
}

#[unsafe(no_mangle)]
pub extern "C" fn spop_check_value(value: &[u64; VALUE_WIDTH], buffer: &[u8]) -> u64
    ensures { result ≡ in_order (value_checks buffer.now (record_in value.now)) 0 }
{
    spop::spop_check_value(value, buffer)
}

#[unsafe(no_mangle)]
pub extern "C" fn spop_write_value(
    value: &[u64; VALUE_WIDTH],
    buffer: &[u8],
    out: &mut [u8],
    at: &mut u64,
) -> u64
    ensures { Left (value_answer buffer.now (record_in value.now)) result at.new out.old out.new }
{
    spop::spop_write_value(value, buffer, out, at)
}

#[unsafe(no_mangle)]
pub extern "C" fn spop_read_pair(input: &[u8], pair: &mut [u64; PAIR_WIDTH], at: &mut u64) -> u64
    ensures { SpopReadPair input.now result at.new pair.old pair.new }
{
    spop::spop_read_pair(input, pair, at)
}

#[unsafe(no_mangle)]
pub extern "C" fn spop_read_frame(
    input: &[u8],
    limit: u32,
    messages: &mut [u64],
    pairs: &mut [u64],
    head: &mut [u64; 6],
    at: &mut u64,
) -> u64
    ensures { SpopReadFrame input.now limit result at.new head.old head.new messages.old messages.new pairs.old pairs.new }
{
    spop::spop_read_frame(input, limit, messages, pairs, head, at)
}

#[unsafe(no_mangle)]
pub extern "C" fn spop_read_frame_records(
    input: &[u8],
    limit: u32,
    messages: &mut [u64],
    pairs: &mut [Pair],
    head: &mut [u64; 6],
    at: &mut u64,
) -> u64
    ensures { SpopReadFrameRecords input.now limit result at.new head.old head.new messages.old messages.new pairs.old pairs.new }
{
    spop::spop_read_frame_records(input, limit, messages, pairs, head, at)
}

#[unsafe(no_mangle)]
pub extern "C" fn spop_read_agent_frame(
    input: &[u8],
    limit: u32,
    pairs: &mut [u64],
    actions: &mut [u64],
    head: &mut [u64; 6],
    at: &mut u64,
) -> u64
    ensures { SpopReadAgentFrame input.now limit result at.new head.old head.new pairs.old pairs.new actions.old actions.new }
{
    spop::spop_read_agent_frame(input, limit, pairs, actions, head, at)
}

#[unsafe(no_mangle)]
pub extern "C" fn spop_read_frames(
    input: &[u8],
    limit: u32,
    rows: &mut [u64],
    messages: &mut [u64],
    pairs: &mut [u64],
    counts: &mut [u64; 4],
    at: &mut u64,
) -> u64
    ensures { SpopReadFrames input.now limit result at.new counts.new rows.old rows.new messages.old messages.new pairs.old pairs.new }
{
    spop::spop_read_frames(input, limit, rows, messages, pairs, counts, at)
}

#[unsafe(no_mangle)]
pub extern "C" fn spop_write_kv(
    kind: u64,
    fin: bool,
    abort: bool,
    stream_id: u64,
    frame_id: u64,
    limit: u32,
    buffer: &[u8],
    pairs: &[u64],
    pair_count: u64,
    out: &mut [u8],
    at: &mut u64,
) -> u64
    ensures { Left (kv_answer (head_of kind fin abort stream_id frame_id) limit buffer.now pairs.now pair_count) result at.new out.old out.new }
{
    spop::spop_write_kv(
        kind, fin, abort, stream_id, frame_id, limit, buffer, pairs, pair_count, out, at,
    )
}

#[unsafe(no_mangle)]
pub extern "C" fn spop_write_actions(
    fin: bool,
    abort: bool,
    stream_id: u64,
    frame_id: u64,
    limit: u32,
    buffer: &[u8],
    actions: &[u64],
    action_count: u64,
    out: &mut [u8],
    at: &mut u64,
) -> u64
    ensures { Left (actions_answer (head_of 103 fin abort stream_id frame_id) limit buffer.now actions.now action_count) result at.new out.old out.new }
{
    spop::spop_write_actions(
        fin,
        abort,
        stream_id,
        frame_id,
        limit,
        buffer,
        actions,
        action_count,
        out,
        at,
    )
}

#[unsafe(no_mangle)]
pub extern "C" fn spop_write_notify(
    fin: bool,
    abort: bool,
    stream_id: u64,
    frame_id: u64,
    limit: u32,
    buffer: &[u8],
    messages: &[u64],
    message_count: u64,
    pairs: &[u64],
    pair_count: u64,
    out: &mut [u8],
    at: &mut u64,
) -> u64
    ensures { Left (notify_answer (head_of 3 fin abort stream_id frame_id) limit buffer.now messages.now message_count pairs.now pair_count) result at.new out.old out.new }
{
    spop::spop_write_notify(
        fin,
        abort,
        stream_id,
        frame_id,
        limit,
        buffer,
        messages,
        message_count,
        pairs,
        pair_count,
        out,
        at,
    )
}

#[unsafe(no_mangle)]
pub extern "C" fn spop_negotiate_max_frame_size(theirs: u32, ours: u32, at: &mut u64) -> u64
    ensures { Told (frame_size theirs ours) result at.new }
{
    spop::spop_negotiate_max_frame_size(theirs, ours, at)
}

#[unsafe(no_mangle)]
pub extern "C" fn spop_negotiate_version(versions: &[u64], version: &mut [u64; 3]) -> bool
    ensures { SpopNegotiateVersion versions.now result version.old version.new }
{
    spop::spop_negotiate_version(versions, version)
}
