// Pairs: checked, measured and written.
ghost use Rattle.std.specs.Prelude.{◌≡◌, ◌+◌, ◌≤◌, length};
ghost use Rattle.answer.specs.Answer.{written, leaves};
ghost use Rattle.types.specs.Form.{part, string_bytes};
ghost use Rattle.frame.specs.Records.{pair_at};
ghost use Rattle.writer.specs.Pair.{pair_bytes, pair_checks};
ghost use Rattle.writer.specs.Inner.{pair_order, Measures, Formed};

use crate::cap;
use crate::records::{Measure, Put, Records};
use answer::Reason;
use frame::{Pair, record_at};

// What a pair on its own is refused with, or how many bytes its written form has, as far as it matters.
pub(crate) fn measure_pair(pair: Pair, buffer: &[u8], most: u32) -> Result<u64, Reason>
    ensures { Measures (pair_checks buffer.now pair) most (pair_bytes buffer.now pair) result }
{
    let value = types::measure_value(pair.value, buffer);
    if value.is_err() && !types::writable(pair.value) {
        return Err(Reason::NotWritable);
    }
    types::check_string(pair.start, pair.len, buffer)?;
    let value_len = value?;
    let key_len = cap(varint::varint_len(pair.len) as u64 + pair.len, most);
    Ok(cap(key_len + value_len as u64, most))
}

// Writes a pair that has a written form, where there is room.
pub(crate) fn put_pair(pair: Pair, buffer: &[u8], out: &mut [u8]) -> usize
    requires formed { Formed buffer.now pair }
    requires pair_in_bounds { length (pair_bytes buffer.now pair) ≤ length out.old }
    ensures value { result ≡ length (pair_bytes buffer.now pair) }
    ensures out_after { out.new ≡ leaves (written (pair_bytes buffer.now pair)) out.old }
{
    let n = put_text(pair.start, pair.len, buffer, out);
    n + answer::wrote(types::write_value(pair.value, buffer, &mut out[n..]))
}

// Writes a string of the buffer where there is room.
pub(crate) fn put_text(start: u64, len: u64, buffer: &[u8], out: &mut [u8]) -> usize
    requires inside { start + len ≤ length buffer.now }
    requires room { length (string_bytes (part buffer.now start len)) ≤ length out.old }
    ensures value { result ≡ length (string_bytes (part buffer.now start len)) }
    ensures out_after { out.new ≡ leaves (written (string_bytes (part buffer.now start len))) out.old }
{
    let from = start as usize;
    let to = from + len as usize;
    answer::wrote(types::write_string(&buffer[from..to], out))
}

// The pairs of a table. Keys may be met twice.
#[derive(Clone, Copy)]
pub(crate) struct Pairs<'a> {
    pub(crate) table: &'a [u64],
    pub(crate) buffer: &'a [u8],
}

impl Records for Pairs<'_> {
    type Record = Pair;

    ghost at = { λ s i. pair_at s.table.now i };
}

impl Measure for Pairs<'_> {
    ghost checks = { λ s i. pair_order s.buffer.now s.table.now i };

    ghost measured = { λ s p. pair_bytes s.buffer.now p };

    fn measure(&self, i: usize, most: u32) -> Result<u64, Reason> {
        measure_pair(record_at(self.table, i), self.buffer, most)
    }
}

impl Put for Pairs<'_> {
    ghost bytes = { λ s p. pair_bytes s.buffer.now p };

    ghost Ready = { λ s i. Formed s.buffer.now (pair_at s.table.now i) };

    fn put(&self, i: usize, out: &mut [u8]) -> usize {
        put_pair(record_at(self.table, i), self.buffer, out)
    }
}
