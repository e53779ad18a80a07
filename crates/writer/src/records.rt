// Records of a table: checked and measured one by one, and written one after the other.
ghost use Rattle.std.specs.Prelude.{◌≡◌, ◌+◌, ◌-◌, ◌*◌, ◌≤◌, ◌<◌, List, ℕ, length, MatchResult};
ghost use Rattle.answer.specs.Answer.{written, leaves};
ghost use Rattle.answer.specs.Inner.{Sound};
ghost use Rattle.answer.specs.Order.{Check};
ghost use Rattle.answer.specs.Table.{records, joined};
ghost use Rattle.answer.specs.Writes.{Writes};
ghost use Rattle.writer.specs.Frame.{limited};
ghost use Rattle.writer.specs.Inner.{capped, Measures, Checks, Counted};

use crate::{begin_frame, cap};
use answer::{Reason, Refusal};
use frame::Head;

// Records of one kind, each by its index.
pub(crate) trait Records {
    type Record;

    ghost at: { Self → ℕ → Self.Record };
}

// Records that are checked and measured.
pub(crate) trait Measure: Records {
    // what record i is refused with
    ghost checks: { Self → ℕ → List Check };

    // what is measured of a record
    ghost measured: { Self → Self.Record → List ℕ };

    // What record i is refused with, where those before it pass, or how many bytes it has, as far as it matters.
    fn measure(&self, i: usize, most: u32) -> Result<u64, Reason>
        requires below { i < usize.MAX }
        requires sound { Sound (checks self.now) i }
        ensures { Measures (checks self.now i) most (measured self.now (Self.at self.now i)) result };
}

// Records that are written.
pub(crate) trait Put: Records {
    // how a record is written
    ghost bytes: { Self → Self.Record → List ℕ };

    // that record i can be
    ghost Ready: { Self → ℕ → Type 0 };

    // Writes record i where there is room.
    fn put(&self, i: usize, out: &mut [u8]) -> usize
        requires ready { Ready self.now i }
        requires room { length (bytes self.now (Self.at self.now i)) ≤ length out.old }
        ensures value { result ≡ length (bytes self.now (Self.at self.now i)) }
        ensures out_after { out.new ≡ leaves (written (bytes self.now (Self.at self.now i))) out.old };
}

// How many records a table is to have, where it has them.
pub(crate) fn count_in(table: &[u64], width: usize, count: u64) -> Result<usize, Refusal>
    requires { 0 < width }
    ensures { Counted table.now width count result }
{
    if ((table.len() / width) as u64) < count {
        return Err(Reason::Outside.at(0));
    }
    Ok(count as usize)
}

// The first record that is refused, or how many bytes all have as far as it matters.
pub(crate) fn check_records<R: Measure>(list: &R, count: usize, most: u32) -> Result<u64, Refusal>
    ensures { Checks (R.checks list.now) count most (joined (R.measured list.now) (records (R.at list.now) 0 count)) result }
{
    let mut len = 0;
    for i in 0..count {
        match list.measure(i, most) {
            Ok(own) => len = cap(len + own, most),
            Err(why) => return Err(why.at(i)),
        }
    }
    Ok(len)
}

// Writes the records from one to another, one after the other, where there is room.
pub(crate) fn put_records<R: Put>(list: &R, from: usize, to: usize, out: &mut [u8]) -> usize
    requires ordered { from ≤ to }
    requires ready { (i : ℕ) → from ≤ i → i < to → R.Ready list.now i }
    requires room { length (joined (R.bytes list.now) (records (R.at list.now) from (to - from))) ≤ length out.old }
    ensures value { result ≡ length (joined (R.bytes list.now) (records (R.at list.now) from (to - from))) }
    ensures out_after { out.new ≡ leaves (written (joined (R.bytes list.now) (records (R.at list.now) from (to - from)))) out.old }
{
    let mut at = 0;
    for i in from..to {
        at += list.put(i, &mut out[at..]);
    }
    at
}

// Writes a frame of records that are not refused, and have `len` bytes.
pub(crate) fn write_frame<R: Put>(
    head: Head,
    len: u64,
    limit: u32,
    list: &R,
    count: usize,
    out: &mut [u8],
) -> Result<usize, Refusal>
    requires ready { (i : ℕ) → i < count → R.Ready list.now i }
    requires len_value { len ≡ capped limit (length (joined (R.bytes list.now) (records (R.at list.now) 0 count))) }
    ensures { Writes (limited limit head (joined (R.bytes list.now) (records (R.at list.now) 0 count))) result out.old out.new }
{
    let start = begin_frame(head, len, limit, out)?;
    put_records(list, 0, count, &mut out[start..]);
    Ok(start + len as usize)
}
