// KV frames: HELLO and DISCONNECT, of either side.
ghost use Rattle.std.specs.Prelude.{◌≡◌, ◌+◌, ◌≤◌, ◌<◌, length};
ghost use Rattle.answer.specs.Writes.{Writes};
ghost use Rattle.answer.specs.Table.{records, some};
ghost use Rattle.answer.specs.Inner.{Sound};
ghost use Rattle.frame.specs.Records.{pair_at, same_key};
ghost use Rattle.writer.specs.Pair.{pair_bytes, kv_checks};
ghost use Rattle.writer.specs.Frame.{head_of, kv_answer};
ghost use Rattle.writer.specs.Inner.{pair_order, KvType};

use crate::pair::Pairs;
use crate::records::{Measure, Records, check_records, count_in, write_frame};
use crate::{fin_alone, head_of};
use answer::{Reason, Refusal};
use frame::{FrameType, PAIR_WIDTH, Pair, record_at};

// Whether two keys are the same text.
fn same_key(p: Pair, q: Pair, buffer: &[u8]) -> bool
    requires len_in_bounds { p.start + p.len ≤ length buffer.now }
    requires len_in_bounds_2 { q.start + q.len ≤ length buffer.now }
    ensures { result ≡ same_key buffer.now p q }
{
    let from = p.start as usize;
    let to = from + p.len as usize;
    let other = q.start as usize;
    let other_to = other + q.len as usize;
    utf8::same_text(&buffer[from..to], &buffer[other..other_to])
}

// The pairs of a KV list, whose keys are met once.
#[derive(Clone, Copy)]
struct KvList<'a> {
    pairs: Pairs<'a>,
}

impl KvList<'_> {
    // Whether the key of pair i is that of an earlier pair.
    fn key_met(&self, i: usize) -> bool
        requires below { i < usize.MAX }
        requires sound { Sound (pair_order self.now.pairs.buffer.now self.now.pairs.table.now) (i + 1) }
        ensures { result ≡ some (same_key self.now.pairs.buffer.now (pair_at self.now.pairs.table.now i)) (records (pair_at self.now.pairs.table.now) 0 i) }
    {
        let pair = record_at(self.pairs.table, i);
        for j in 0..i {
            if same_key(pair, record_at(self.pairs.table, j), self.pairs.buffer) {
                return true;
            }
        }
        false
    }
}

impl Records for KvList<'_> {
    type Record = Pair;

    ghost at = { λ s i. pair_at s.pairs.table.now i };
}

impl Measure for KvList<'_> {
    ghost checks = { λ s i. kv_checks s.pairs.buffer.now s.pairs.table.now i };

    ghost measured = { λ s p. pair_bytes s.pairs.buffer.now p };

    fn measure(&self, i: usize, most: u32) -> Result<u64, Reason> {
        let len = self.pairs.measure(i, most)?;
        if self.key_met(i) {
            return Err(Reason::MetTwice);
        }
        Ok(len)
    }
}

// The type that a number names, where a KV frame with this metadata is writable.
#[tactic(auto, unfolding(crate::specs::Frame::kv_allowed, answer::specs::Table::some))]
fn kv_type(
    frame_type: u64,
    fin: bool,
    abort: bool,
    stream_id: u64,
    frame_id: u64,
) -> Option<FrameType>
    ensures { KvType (head_of frame_type fin abort stream_id frame_id) result }
{
    let Ok(number) = u8::try_from(frame_type) else {
        return None;
    };
    let Ok(kind) = FrameType::try_from(number) else {
        return None;
    };
    match kind {
        FrameType::HAProxyHello | FrameType::HAProxyDisconnect => Some(kind),
        FrameType::AgentHello | FrameType::AgentDisconnect
            if fin_alone(fin, abort) && stream_id == 0 && frame_id == 0 => Some(kind),
        _ => None,
    }
}

// Writes a KV frame at the front of `out`: its head, and its pairs in their order.
pub fn write_kv(
    frame_type: u64,
    fin: bool,
    abort: bool,
    stream_id: u64,
    frame_id: u64,
    limit: u32,
    buffer: &[u8],
    pairs: &[u64],
    pair_count: u64,
    out: &mut [u8],
) -> Result<usize, Refusal>
    ensures { Writes (kv_answer (head_of frame_type fin abort stream_id frame_id) limit buffer.now pairs.now pair_count) result out.old out.new }
{
    let Some(kind) = kv_type(frame_type, fin, abort, stream_id, frame_id) else {
        return Err(Reason::NotWritable.at(0));
    };
    let count = count_in(pairs, PAIR_WIDTH, pair_count)?;
    let list = KvList {
        pairs: Pairs {
            table: pairs,
            buffer,
        },
    };
    let len = check_records(&list, count, limit)?;
    let head = head_of(kind, fin, abort, stream_id, frame_id);
    write_frame(head, len, limit, &list.pairs, count, out)
}
