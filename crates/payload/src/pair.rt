// A pair, read from the front of some bytes, or at a place of them.
ghost use Rattle.std.specs.Prelude.{◌≡◌, ◌+◌, ◌≤◌, ◌<◌, ◌^◌, length, MatchResult};
ghost use Rattle.answer.specs.Writes.{read_said, read_behind};
ghost use Rattle.types.specs.Value.{moved as moved_record};
ghost use Rattle.types.specs.Promise.{record_of};
ghost use Rattle.payload.specs.Pair.{moved_pair, pair_from};
ghost use Rattle.payload.specs.Promise.{ReadPair, PairFrom};

use answer::{Read, Reason, Refusal};
use frame::Pair;
use types::Value;

// What was read behind `n` other bytes, told from the front of all. What was read lies in a slice, so the sums fit; `answer::behind` takes any
// numbers, and tests that.
pub(crate) fn behind<T>(read: Result<Read<T>, Refusal>, n: usize) -> Result<Read<T>, Refusal>
    requires { MatchResult read (λ x. n + x.used < 2 ^ 64) (λ r. n + r.place < 2 ^ 64) }
    ensures { result ≡ read_behind n read }
{
    match read {
        Ok(Read { value, used }) => Ok(Read {
            value,
            used: n + used,
        }),
        Err(Refusal { reason, place }) => Err(reason.at(n + place)),
    }
}

// Reads the pair at the front of `input`: its key, and its value behind that. Starts count from the input's first byte.
pub fn read_pair(input: &[u8]) -> Result<Read<Pair>, Refusal>
    ensures { ReadPair input.now result }
{
    let Read { value: key, used } = types::read_string(input)?;
    let value = behind(types::typed_data(&input[used..]), used)?;
    Ok(Read {
        value: Pair {
            start: key.start as u64,
            len: key.len as u64,
            value: moved_value(value.value, used as u64),
        },
        used: value.used,
    })
}

// A value that was read behind n other bytes: where it points, its start moves.
fn moved_value(value: Value, n: u64) -> Value
    requires { 6 ≤ value.kind → value.kind < 10 → value.a + n < 2 ^ 64 }
    ensures { record_of result ≡ moved_record n (record_of value) }
{
    let kind = value.kind;
    if kind < 6 {
        return value;
    }
    if 10 <= kind {
        return value;
    }
    Value {
        a: n + value.a,
        ..value
    }
}

// A pair that was read behind n other bytes.
pub(crate) fn moved_pair(pair: Pair, n: u64) -> Pair
    requires { (pair.start + n < 2 ^ 64) × (6 ≤ pair.value.kind → pair.value.kind < 10 → pair.value.a + n < 2 ^ 64) }
    ensures { result ≡ moved_pair n pair }
{
    Pair {
        start: n + pair.start,
        len: pair.len,
        value: moved_value(pair.value, n),
    }
}

// Reads the pair that stands at `at`, which lies in the bytes. Starts count from the input's first byte.
pub(crate) fn pair_at(input: &[u8], at: usize) -> Result<Read<Pair>, Refusal>
    requires { at ≤ length input.now }
    ensures { read_said result ≡ pair_from at input.now }
{
    let Read { value: pair, used } = behind(read_pair(&input[at..]), at)?;
    Ok(Read {
        value: moved_pair(pair, at as u64),
        used,
    })
}

// The same for every place: behind the bytes they have ended too soon.
pub fn pair_from(input: &[u8], at: usize) -> Result<Read<Pair>, Refusal>
    ensures { PairFrom input.now at result }
{
    if input.len() < at {
        return Err(Reason::TooSoon.at(at));
    }
    pair_at(input, at)
}
