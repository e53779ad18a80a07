// The cut of a frame by its length, and the head, read.
ghost use Rattle.std.specs.Prelude.{◌≡◌, ◌≤◌, eqb, length};
ghost use Rattle.answer.specs.Table.{some};
ghost use Rattle.frame.specs.Head.{four_number};
ghost use Rattle.frame.specs.Read.{fin_set};
ghost use Rattle.frame.specs.Promise.{Cut, ReadHead};

use crate::{FrameType, Head, Side, Stop};
use answer::{Read, Reason, Refusal};

// The number that the first four bytes are, the highest first.
fn four(bytes: &[u8]) -> u32
    requires { 4 ≤ length bytes.now }
    ensures { result ≡ four_number bytes.now }
{
    bytes[0] as u32 * 0x100_0000
        + bytes[1] as u32 * 0x1_0000
        + bytes[2] as u32 * 0x100
        + bytes[3] as u32
}

// Cuts out the frame at the front of `input` by its length, which is to be within the limit: how many bytes it has, with its length bytes.
pub fn cut(input: &[u8], limit: u32) -> Result<usize, Stop>
    ensures { Cut input.now limit result }
{
    let have = input.len();
    if have < 4 {
        return Err(Stop::Wait(4 - have));
    }
    let len = four(input);
    if limit < len {
        return Err(Stop::Refused(Reason::Oversize.at(4)));
    }
    let end = 4 + len as usize;
    if have < end {
        return Err(Stop::Wait(end - have));
    }
    Ok(end)
}

// Whether these flags are allowed: FIN, with ABORT or without.
fn flags_allowed(flags: u32) -> bool
    ensures { result ≡ some (eqb flags) fin_set }
{
    flags == 1 || flags == 3
}

// Reads what stands before the payload, of a frame that was cut out, with its length bytes, and that this side sends.
pub fn read_head(frame: &[u8], side: Side) -> Result<Read<Head>, Refusal>
    ensures { ReadHead frame.now side result }
{
    let Some(&number) = frame.get(4) else {
        return Err(Reason::TooSoon.at(4));
    };
    let Ok(frame_type) = FrameType::try_from(number) else {
        return Err(Reason::Unknown.at(4));
    };
    if frame.len() < 9 {
        return Err(Reason::TooSoon.at(5));
    }
    let flags = four(&frame[5..]);
    if !flags_allowed(flags) {
        return Err(Reason::Unknown.at(4));
    }
    if flags / 2 % 2 != 0 {
        return Err(Reason::Aborted.at(4));
    }
    let stream = answer::behind(varint::decode_varint(&frame[9..]), 9)?;
    let at = stream.used;
    let id = answer::behind(varint::decode_varint(&frame[at..]), at)?;
    if !frame_type.is_sent_by(side) {
        return Err(Reason::OtherSide.at(4));
    }
    Ok(Read {
        value: Head {
            frame_type: number,
            flags,
            stream: stream.value,
            frame: id.value,
        },
        used: id.used,
    })
}
