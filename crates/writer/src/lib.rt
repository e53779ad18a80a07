// KV, action and NOTIFY frames, written (SPOE.txt, sections 3.2 and 3.4).
//
// Every writer checks and measures all records before it writes the first byte. No public call has a `requires`: each does its own
// refusing, and a refusal changes no byte. This file has what the writers share, `records` how they go over their records, `pair` what
// a pair is written as, and a module for each writer the rest.

#![tactic(auto)]

mod action;
mod kv;
mod notify;
mod pair;
mod records;

ghost use Rattle.std.specs.Prelude.{◌≡◌, eqb, length};
ghost use Rattle.frame.specs.Kind.{number_of_type};
ghost use Rattle.writer.specs.Frame.{flags_of, head_of};
ghost use Rattle.writer.specs.Inner.{capped, begun, Begins};

pub use action::write_actions;
use answer::{Reason, Refusal};
use frame::{FrameType, Head};
pub use kv::write_kv;
pub use notify::write_notify;

// A length as far as it matters: all that is over `most` is one more than it. Many records may point at the same long part of the
// buffer, so the sum of their lengths need not fit 64 bits.
pub(crate) fn cap(n: u64, most: u32) -> u64
    ensures { result ≡ capped most n }
{
    n.min(most as u64 + 1)
}

fn flags(fin: bool, abort: bool) -> u32
    ensures { result ≡ flags_of fin abort }
{
    fin as u32 + 2 * abort as u32
}

// Whether FIN is set and ABORT is not.
pub(crate) fn fin_alone(fin: bool, abort: bool) -> bool
    ensures { result ≡ eqb (flags_of fin abort) 1 }
{
    fin && !abort
}

pub(crate) fn head_of(
    frame_type: FrameType,
    fin: bool,
    abort: bool,
    stream: u64,
    frame: u64,
) -> Head
    ensures { result ≡ head_of (number_of_type frame_type) fin abort stream frame }
{
    Head {
        frame_type: frame_type as u8,
        flags: flags(fin, abort),
        stream,
        frame,
    }
}

// Writes the length bytes and the head of a frame whose payload is to have `len` bytes, where the whole frame is within the limit
// and finds room: else 12, or 11.
pub(crate) fn begin_frame(
    head: Head,
    len: u64,
    limit: u32,
    out: &mut [u8],
) -> Result<usize, Refusal>
    ensures { Begins (begun (length out.old) limit head len) result out.old out.new }
{
    if (limit as u64) < len {
        return Err(Reason::OverLimit.at(0));
    }
    let behind = frame::head_len(head) + len as usize;
    let most = limit as usize;
    let whole = 4 + behind;
    let room = out.len();
    if most < behind {
        return Err(Reason::OverLimit.at(0));
    }
    if room < whole {
        return Err(Reason::NoRoom.at(0));
    }
    frame::write_head(behind as u32, head, out)
}
