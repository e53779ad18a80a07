// Variable-length numbers (SPOE.txt, section 3.1): their length, writing and reading.
//
// No public call has a `requires`: each does its own refusing, and a refusal changes no byte.

#![tactic(auto)]

ghost use Rattle.std.specs.Prelude.{◌≡◌, ◌≤◌, ◌<◌, ◌^◌, length, drop, nat_le};
ghost use Rattle.answer.specs.Answer.{written, leaves};
ghost use Rattle.varint.specs.Number.{more, groups, number_bytes};
ghost use Rattle.varint.specs.Promise.{DecodeVarint};
ghost use Rattle.answer.specs.Writes.{read_said, Writes};

use answer::{Read, Reason, Refusal};

// How many bytes the written form of i has. From 240 on it is counted in steps of 16, whose bits, seven to a byte, leave two lengths: k and k + 1 bytes
// behind the first. The longer one starts at 2^7 + 2^14 + ... + 2^7k steps, of which 127 128ths are 2^7k - 1.
pub fn varint_len(i: u64) -> usize
    ensures { result ≡ length (number_bytes i) }
{
    if i < 240 {
        return 1;
    }
    let steps = (i - 240) / 16;
    // A seventh of the bits: 37 256ths are as good for so few.
    let k = (64 - u64::leading_zeros(steps)) * 37 / 256;
    if steps - (steps + 127) / 128 + 1 < 1u64 << (7 * k) {
        k as usize + 1
    } else {
        k as usize + 2
    }
}

// Whether i's written form has at most so many bytes.
fn fits(i: u64, room: usize) -> bool
    ensures { result ≡ nat_le (length (number_bytes i)) room }
{
    // Ten are always enough, and spare the measuring.
    10 <= room || varint_len(i) <= room
}

// Writes i at the front of `out`.
pub fn encode_varint(i: u64, out: &mut [u8]) -> Result<usize, Refusal>
    ensures { Writes (written (number_bytes i)) result out.old out.new }
{
    if !fits(i, out.len()) {
        return Err(Reason::NoRoom.at(0));
    }
    if i < 240 {
        out[0] = i as u8;
        return Ok(1);
    }
    out[0] = (240 + i % 16) as u8;
    Ok(1 + encode_more((i - 240) / 16, &mut out[1..]))
}

// Writes what follows the first byte, where there is room. It goes on by what is left of the number, so there is no range to go over.
fn encode_more(steps: u64, out: &mut [u8]) -> usize
    requires steps_bound { steps < 2 ^ 60 }
    requires steps_in_bounds { length (groups 9 steps) ≤ length out.old }
    ensures value { result ≡ length (groups 9 steps) }
    ensures out_after { out.new ≡ leaves (written (groups 9 steps)) out.old }
{
    let mut at = 0;
    let mut rest = steps;
    while 128 <= rest {
        out[at] = (128 + rest % 128) as u8;
        at += 1;
        rest = (rest - 128) / 128;
    }
    out[at] = rest as u8;
    at + 1
}

// Reads the number at the front of `input`.
pub fn decode_varint(input: &[u8]) -> Result<Read<u64>, Refusal>
    ensures { DecodeVarint input.now result }
{
    let Some(&first) = input.first() else {
        return Err(Reason::TooSoon.at(0));
    };
    if 240 <= first {
        return decode_more(u64::from(first), input);
    }
    Ok(Read {
        value: u64::from(first),
        used: 1,
    })
}

// Reads on after a first byte that is not the number itself. Nine bytes cannot add up to more than 64 bits, so the tenth alone is asked.
fn decode_more(first: u64, input: &[u8]) -> Result<Read<u64>, Refusal>
    requires { first < 256 }
    ensures { read_said result ≡ more first 1 (drop 1 input.now) }
{
    let mut sum = first;
    for k in 1..9 {
        let Some(&byte) = input.get(k) else {
            return Err(Reason::TooSoon.at(k));
        };
        sum += u64::from(byte) << (7 * k - 3);
        if byte < 128 {
            return Ok(Read {
                value: sum,
                used: k + 1,
            });
        }
    }
    decode_tenth(sum, input)
}

// Reads a tenth byte, after nine that add up to sum.
fn decode_tenth(sum: u64, input: &[u8]) -> Result<Read<u64>, Refusal>
    ensures { read_said result ≡ more sum 9 (drop 9 input.now) }
{
    let Some(&byte) = input.get(9) else {
        return Err(Reason::TooSoon.at(9));
    };
    if 15 < byte {
        return Err(Reason::NotFitting.at(10));
    }
    let addend = u64::from(byte) << 60;
    if u64::MAX - sum < addend {
        return Err(Reason::TooLarge.at(10));
    }
    Ok(Read {
        value: sum + addend,
        used: 10,
    })
}
