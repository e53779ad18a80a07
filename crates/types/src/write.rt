// Strings and values, measured and written at the front of some bytes.
ghost use Rattle.std.specs.Prelude.{◌≡◌, true, List, ℕ, ◌+◌, ◌≤◌, ◌<◌, ◌^◌, leb, length};
ghost use Rattle.answer.specs.Answer.{written, leaves};
ghost use Rattle.varint.specs.Number.{number_bytes};
ghost use Rattle.types.specs.Value.{address, shape};
ghost use Rattle.types.specs.Form.{string_bytes, data_bytes, type_of, writable_record, value_answer, length_of};
ghost use Rattle.types.specs.Promise.{record_of, MeasureValue};
ghost use Rattle.types.specs.Inner.{Puts, PutsValue, WhyNot, block};
ghost use Rattle.answer.specs.Reason.{number_of};
ghost use Rattle.answer.specs.Writes.{Writes};

use crate::Value;
use crate::check::{check_value, in_range, part_inside, writable};
use answer::{Reason, Refusal};

// How many bytes the written form of a value has; 0 where it has none.
pub fn value_len(value: Value, buffer: &[u8]) -> usize
    ensures { result ≡ length_of (value_answer buffer.now (record_of value)) }
{
    if !writable(value) {
        return 0;
    }
    if !in_range(value, buffer) {
        return 0;
    }
    form_len(value)
}

// Checks a value and measures its written form, so that who needs both looks at its record once.
pub fn measure_value(value: Value, buffer: &[u8]) -> Result<usize, Reason>
    ensures { MeasureValue value buffer.now result }
{
    check_value(value, buffer)?;
    Ok(form_len(value))
}

// How many bytes the written form of a value has that has one.
fn form_len(value: Value) -> usize
    requires value_value { writable_record (record_of value) ≡ true }
    requires b_bound { value.b < 2 ^ 63 }
    ensures { (bytes : List ℕ) → length bytes ≡ value.b → result ≡ length (data_bytes (shape value.kind) (type_of value.kind value.flags) value.a bytes) }
{
    let kind = value.kind;
    if kind < 2 {
        return 1;
    }
    if kind < 6 {
        return 1 + varint::varint_len(value.a);
    }
    let len = value.b as usize;
    if kind < 8 {
        return 1 + len;
    }
    1 + varint::varint_len(value.b) + len
}

// Writes a string at the front of `out`: its length number and its bytes.
pub fn write_string(text: &[u8], out: &mut [u8]) -> Result<usize, Refusal>
    ensures { Writes (written (string_bytes text.now)) result out.old out.new }
{
    if !string_fits(text, out.len()) {
        return Err(Reason::NoRoom.at(0));
    }
    Ok(put_string(text, out))
}

// Whether the written form of a string has at most `room` bytes. Ten beside its own are always enough, and spare the measuring.
fn string_fits(text: &[u8], room: usize) -> bool
    ensures { result ≡ leb (length (string_bytes text.now)) room }
{
    let len = text.len();
    len <= room && (10 <= room - len || varint::varint_len(len as u64) <= room - len)
}

// Writes a value at the front of `out`. It refuses what has no written form; whether a string is UTF-8 is not its to ask.
pub fn write_value(value: Value, buffer: &[u8], out: &mut [u8]) -> Result<usize, Refusal>
    ensures { Writes (value_answer buffer.now (record_of value)) result out.old out.new }
{
    let n = put_value(value, buffer, out);
    if n == 0 {
        return Err(why_not(value, buffer).at(0));
    }
    Ok(n)
}

// What a value that was not written is refused with: where it has a written form, there was no room.
fn why_not(value: Value, buffer: &[u8]) -> Reason
    ensures { WhyNot value buffer.now (number_of result) }
{
    if !writable(value) {
        return Reason::NotWritable;
    }
    if !in_range(value, buffer) {
        return Reason::Outside;
    }
    Reason::NoRoom
}

// Writes a value and says how many bytes it wrote: 0 where it is refused, since no written form is empty. One number stays in a
// register, which an enum's cases from many branches do not. Each class of kinds tests its own fields, but for the flags of those that
// point: one test for all of them in front was measured slower.
fn put_value(value: Value, buffer: &[u8], out: &mut [u8]) -> usize
    ensures { PutsValue value buffer.now result out.old out.new }
{
    let kind = value.kind;
    if kind < 6 {
        if kind < 2 {
            return put_plain(value, out);
        }
        return put_integer(value, out);
    }
    if 16 <= value.flags {
        return 0;
    }
    if kind == 6 {
        return put_address(value, 4, buffer, out);
    }
    if kind == 7 {
        return put_address(value, 16, buffer, out);
    }
    if kind < 10 {
        return put_text(value, buffer, out);
    }
    0
}

// The same of null and bool, which are one byte.
fn put_plain(value: Value, out: &mut [u8]) -> usize
    requires { value.kind < 2 }
    ensures { (buffer : List ℕ) → PutsValue value buffer result out.old out.new }
{
    if !writable(value) {
        return 0;
    }
    if out.len() == 0 {
        return 0;
    }
    out[0] = (value.kind + 16 * value.flags + 16 * value.a) as u8;
    1
}

// The same of an integer.
fn put_integer(value: Value, out: &mut [u8]) -> usize
    requires { (2 ≤ value.kind) × (value.kind < 6) }
    ensures { (buffer : List ℕ) → PutsValue value buffer result out.old out.new }
{
    if !writable(value) {
        return 0;
    }
    if !number_fits(value.a, out.len()) {
        return 0;
    }
    out[0] = type_byte(value.kind, value.flags);
    1 + answer::wrote(varint::encode_varint(value.a, &mut out[1..]))
}

// The same of an address of len bytes, which each caller says outright, so that the copy has a fixed length.
fn put_address(value: Value, len: usize, buffer: &[u8], out: &mut [u8]) -> usize
    requires kind_value { shape value.kind ≡ address len }
    requires kind_bound { (value.kind < 8) × (len ≤ 16) × (value.flags < 16) }
    ensures { PutsValue value buffer.now result out.old out.new }
{
    if value.b != len as u64 {
        return 0;
    }
    if !part_inside(value.a, len as u64, buffer) {
        return 0;
    }
    if out.len() <= len {
        return 0;
    }
    out[0] = type_byte(value.kind, value.flags);
    let from = value.a as usize;
    let to = from + len;
    1 + put_bytes(&buffer[from..to], &mut out[1..])
}

// The same of a string or a binary.
fn put_text(value: Value, buffer: &[u8], out: &mut [u8]) -> usize
    requires { (8 ≤ value.kind) × (value.kind < 10) × (value.flags < 16) }
    ensures { PutsValue value buffer.now result out.old out.new }
{
    let b = value.b;
    if !part_inside(value.a, b, buffer) {
        return 0;
    }
    let len = b as usize;
    if out.len() < len {
        return 0;
    }
    if !number_fits(b, out.len() - len) {
        return 0;
    }
    out[0] = type_byte(value.kind, value.flags);
    let from = value.a as usize;
    let to = from + len;
    1 + put_string(&buffer[from..to], &mut out[1..])
}

// The type byte of a kind other than a boolean.
fn type_byte(kind: u64, flags: u64) -> u8
    requires { (kind < 16) × (flags < 16) }
    ensures { result ≡ type_of kind flags }
{
    (kind + 16 * flags) as u8
}

// Whether a type byte and the written form of n have at most `room` bytes. Eleven are always enough, and spare the measuring.
fn number_fits(n: u64, room: usize) -> bool
    ensures { result ≡ leb (1 + length (number_bytes n)) room }
{
    if 11 <= room {
        return true;
    }
    1 + varint::varint_len(n) <= room
}

// Writes a string where there is room.
fn put_string(text: &[u8], out: &mut [u8]) -> usize
    requires { length (string_bytes text.now) ≤ length out.old }
    ensures { Puts (written (string_bytes text.now)) result out.old out.new }
{
    let n = answer::wrote(varint::encode_varint(text.len() as u64, out));
    n + put_bytes(text, &mut out[n..])
}

// Copies bytes where there is room: in blocks, the last of which may overlap the one before it, so that no byte is left to go by itself.
// `copy_from_slice` was tried: the library then needs `memmove` too, and a value of 8 bytes takes 134 instructions against 127.
fn put_bytes(bytes: &[u8], out: &mut [u8]) -> usize
    requires { length bytes.now ≤ length out.old }
    ensures { Puts (written bytes.now) result out.old out.new }
{
    let len = bytes.len();
    if 16 < len {
        put_many(bytes, out);
        return len;
    }
    if 8 <= len {
        put_ends(bytes, 8, out);
        return len;
    }
    if 4 <= len {
        put_ends(bytes, 4, out);
        return len;
    }
    put_each(bytes, out);
    len
}

// Copies more than 16 bytes.
fn put_many(bytes: &[u8], out: &mut [u8])
    requires { (16 < length bytes.now) × (length bytes.now ≤ length out.old) }
    ensures { out.new ≡ leaves (written bytes.now) out.old }
{
    let len = bytes.len();
    for at in (0..len - 16).step_by(16) {
        put_block(bytes, at, 16, out);
    }
    put_block(bytes, len - 16, 16, out);
}

// Copies n to 2n bytes: the first n and the last n.
fn put_ends(bytes: &[u8], n: usize, out: &mut [u8])
    requires { (n ≤ length bytes.now) × (length bytes.now ≤ n + n) × (n ≤ 16) × (length bytes.now ≤ length out.old) }
    ensures { out.new ≡ leaves (written bytes.now) out.old }
{
    put_block(bytes, 0, n, out);
    put_block(bytes, bytes.len() - n, n, out);
}

// Copies the n bytes at `at` to the same place. All are read before one is written, so that they go as one word.
fn put_block(bytes: &[u8], at: usize, n: usize, out: &mut [u8])
    requires { (at + n ≤ length bytes.now) × (n ≤ 16) × (length bytes.now ≤ length out.old) }
    ensures { out.new ≡ block bytes.now at n out.old }
{
    let mut own = [0; 16];
    let end = at + n;
    put_each(&bytes[at..end], &mut own);
    put_each(&own[..n], &mut out[at..]);
}

// Copies bytes one by one.
fn put_each(bytes: &[u8], out: &mut [u8])
    requires { length bytes.now ≤ length out.old }
    ensures { out.new ≡ leaves (written bytes.now) out.old }
{
    for (at, byte) in bytes.iter().enumerate() {
        out[at] = *byte;
    }
}
