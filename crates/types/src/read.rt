// Strings and values, read from the front of some bytes.
ghost use Rattle.std.specs.Prelude.{◌≡◌, true, false, cond, ◌+◌, ◌≤◌, ◌<◌, ◌^◌, leb, length, MatchResult};
ghost use Rattle.answer.specs.Writes.{read_behind};
ghost use Rattle.answer.specs.Answer.{done, refused};
ghost use Rattle.types.specs.Value.{Width, integer, address, shape, value as a_record, narrowed};
ghost use Rattle.types.specs.Promise.{read_value, value_said, ReadString, TypedData};
ghost use Rattle.types.specs.Inner.{ReadsKind, numbered};

use crate::{Span, Value};
use answer::{Read, Reason, Refusal};

// Reads the string at the front of `input`: a length number and that many bytes.
pub fn read_string(input: &[u8]) -> Result<Read<Span>, Refusal>
    ensures { ReadString input.now result }
{
    let Read { value: n, used } = varint::decode_varint(input)?;
    if ((input.len() - used) as u64) < n {
        return Err(Reason::TooSoon.at(used));
    }
    let len = n as usize;
    Ok(Read {
        value: Span { start: used, len },
        used: used + len,
    })
}

// Reads the value at the front of `input`.
pub fn typed_data(input: &[u8]) -> Result<Read<Value>, Refusal>
    ensures { TypedData input.now result }
{
    let Some(&first) = input.first() else {
        return Err(Reason::TooSoon.at(0));
    };
    let kind = (first % 16) as u64;
    let flags = (first / 16 % 16) as u64;
    if (NUMBERED >> kind) % 2 == 1 {
        return read_number(kind, flags, input);
    }
    read_other(kind, flags, input)
}

// The kinds whose type byte a number follows, a bit for each: the integers, 2 to 5, and the length of a string or a binary, 8 and 9. One
// test tells them from the others, and one reader of numbers serves them all.
const NUMBERED: u64 = 0x33C;

// What was read behind `n` other bytes, told from the front of all. What was read lies in a slice, so the sums fit; `answer::behind` takes any
// numbers, and tests that.
fn behind<T>(read: Result<Read<T>, Refusal>, n: usize) -> Result<Read<T>, Refusal>
    requires { MatchResult read (λ x. n + x.used < 2 ^ 64) (λ r. n + r.place < 2 ^ 64) }
    ensures { result ≡ read_behind n read }
{
    match read {
        Ok(Read { value, used }) => Ok(Read {
            value,
            used: n + used,
        }),
        Err(Refusal { reason, place }) => Err(reason.at(n + place)),
    }
}

// Reads the number behind the type byte, of one of these kinds, and what that number stands for.
fn read_number(kind: u64, flags: u64, input: &[u8]) -> Result<Read<Value>, Refusal>
    requires input_nonzero { 0 < length input.now }
    requires kind_value { numbered (shape kind) ≡ true }
    ensures { ReadsKind kind flags input.now (value_said result) }
{
    let Read { value: n, used } = behind(varint::decode_varint(&input[1..]), 1)?;
    if kind < 6 {
        return Ok(integer_value(kind, flags, n, used));
    }
    bytes_value(kind, flags, n, used, input)
}

// An integer whose number is n, and which took so many bytes.
fn integer_value(kind: u64, flags: u64, n: u64, used: usize) -> Read<Value>
    requires { (2 ≤ kind) × (kind < 6) }
    ensures { (w : Width) → shape kind ≡ integer w → read_value result ≡ done (a_record kind (narrowed w n) 0 flags) used }
{
    Read {
        value: Value {
            kind,
            a: narrow(kind, n),
            b: 0,
            flags,
        },
        used,
    }
}

// The bits that an integer of this kind keeps of its number.
fn narrow(kind: u64, n: u64) -> u64
    requires { (2 ≤ kind) × (kind < 6) }
    ensures { (w : Width) → shape kind ≡ integer w → result ≡ narrowed w n }
{
    match kind {
        2 => crate::sign_extend(n),
        3 => n % 0x1_0000_0000,
        _ => n,
    }
}

// A string or a binary of n bytes, which start behind those taken so far.
fn bytes_value(
    kind: u64,
    flags: u64,
    n: u64,
    taken: usize,
    input: &[u8],
) -> Result<Read<Value>, Refusal>
    requires { taken ≤ length input.now }
    ensures { value_said result ≡ cond (leb (taken + n) (length input.now)) (done (a_record kind taken n flags) (taken + n)) (refused 3 taken) }
{
    if ((input.len() - taken) as u64) < n {
        return Err(Reason::TooSoon.at(taken));
    }
    Ok(Read {
        value: Value {
            kind,
            a: taken as u64,
            b: n,
            flags,
        },
        used: taken + n as usize,
    })
}

// Reads a value of another kind: null, a bool or an address. They are told apart by their order, since a test for each number becomes
// a table of jumps, which takes longer.
fn read_other(kind: u64, flags: u64, input: &[u8]) -> Result<Read<Value>, Refusal>
    requires input_nonzero { 0 < length input.now }
    requires kind_value { numbered (shape kind) ≡ false }
    ensures { ReadsKind kind flags input.now (value_said result) }
{
    if 8 <= kind {
        return Err(Reason::NoType.at(1));
    }
    if 6 <= kind {
        return read_address(kind, address_len(kind), flags, input);
    }
    let value = if kind == 0 {
        Value {
            kind,
            a: 0,
            b: 0,
            flags,
        }
    } else {
        Value {
            kind,
            a: flags % 2,
            b: 0,
            flags: 0,
        }
    };
    Ok(Read { value, used: 1 })
}

// How many bytes an address has.
fn address_len(kind: u64) -> usize
    requires { (6 ≤ kind) × (kind < 8) }
    ensures { shape kind ≡ address result }
{
    if kind == 6 { 4 } else { 16 }
}

// Finds the address of len bytes behind the type byte.
fn read_address(kind: u64, len: usize, flags: u64, input: &[u8]) -> Result<Read<Value>, Refusal>
    requires input_nonzero { 0 < length input.now }
    requires kind_value { shape kind ≡ address len }
    ensures { ReadsKind kind flags input.now (value_said result) }
{
    if input.len() - 1 < len {
        return Err(Reason::TooSoon.at(1));
    }
    Ok(Read {
        value: Value {
            kind,
            a: 1,
            b: len as u64,
            flags,
        },
        used: 1 + len,
    })
}
