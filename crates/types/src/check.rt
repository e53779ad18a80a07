// What a string or a value is refused with before it is written: its numbers, its range, its text.
ghost use Rattle.std.specs.Prelude.{◌≡◌, ◌&&◌, ◌<◌};
ghost use Rattle.types.specs.Value.{shape, in_fields, in_flags};
ghost use Rattle.types.specs.Form.{inside, ranged, writable_record};
ghost use Rattle.types.specs.Promise.{record_of};
ghost use Rattle.answer.specs.Order.{Checked};
ghost use Rattle.types.specs.Check.{value_checks, part_checks, string_checks};

use crate::Value;
use answer::Reason;

// Whether a value's numbers lie in their fields: where not, it is 14. Tried: with `0..=5` for the first arm the compiler asks for the other
// kinds first, and every value takes 1.3 to 1.9 nanoseconds more.
pub fn writable(value: Value) -> bool
    ensures { result ≡ writable_record (record_of value) }
{
    if 16 <= value.flags {
        return false;
    }
    match value.kind {
        kind if kind < 6 => value.b == 0 && in_field(kind, value.a, value.flags),
        6 => value.b == 4,
        7 => value.b == 16,
        kind => kind < 10,
    }
}

// Whether the number of a kind that points at no bytes lies in its field, and a boolean has no flags.
fn in_field(kind: u64, a: u64, flags: u64) -> bool
    requires { (kind < 6) × (flags < 16) }
    ensures { result ≡ in_flags (shape kind) flags && in_fields (shape kind) a 0 }
{
    match kind {
        0 => a == 0,
        1 => flags == 0 && a < 2,
        2 => a == crate::sign_extend(a),
        3 => a < 0x1_0000_0000,
        _ => true,
    }
}

// Whether a value points inside the buffer, or at no bytes: where not, it is 16.
pub fn in_range(value: Value, buffer: &[u8]) -> bool
    ensures { result ≡ ranged buffer.now (record_of value) }
{
    match value.kind {
        6..=9 => part_inside(value.a, value.b, buffer),
        _ => true,
    }
}

// Whether len bytes from start on lie in the buffer.
pub fn part_inside(start: u64, len: u64, buffer: &[u8]) -> bool
    ensures { result ≡ inside buffer.now start len }
{
    let room = buffer.len() as u64;
    start <= room && len <= room - start
}

// Whether a string that a record points at can be written: it is refused outside the buffer, and where it is not UTF-8.
pub fn check_string(start: u64, len: u64, buffer: &[u8]) -> Result<(), Reason>
    ensures { Checked (string_checks buffer.now start len) result }
{
    if !part_inside(start, len, buffer) {
        return Err(Reason::Outside);
    }
    let from = start as usize;
    let to = from + len as usize;
    if !utf8::is_utf8(&buffer[from..to]) {
        return Err(Reason::NotText);
    }
    Ok(())
}

// Whether a value whose numbers lie in their fields can be written: by its range, and the text of a string.
pub fn check_part(value: Value, buffer: &[u8]) -> Result<(), Reason>
    ensures { Checked (part_checks buffer.now (record_of value)) result }
{
    if value.kind == 8 {
        return check_string(value.a, value.b, buffer);
    }
    if !in_range(value, buffer) {
        return Err(Reason::Outside);
    }
    Ok(())
}

// Whether a value can be written: by its fields, its range and its text, in this order.
pub fn check_value(value: Value, buffer: &[u8]) -> Result<(), Reason>
    ensures { Checked (value_checks buffer.now (record_of value)) result }
{
    if !writable(value) {
        return Err(Reason::NotWritable);
    }
    check_part(value, buffer)
}
