// Whole frames, read (SPOE.txt, section 3.2): what HAProxy sends (`read_frame`, and `look_frame`, which writes nothing), and what agents send
// (`read_agent_frame`).
//
// A frame is cut out of the bytes by its length; then comes its head (both by `frame`), and then the payload of its type (by `payload`). No public
// call has a `requires`: each does its own refusing.

#![tactic(auto)]

ghost use Rattle.std.specs.Prelude.{◌≡◌};
ghost use Rattle.frame.specs.Read.{sender, answered};
ghost use Rattle.payload.specs.Promise.{rooms_of};
ghost use Rattle.parser.specs.Frame.{payload_of, framed, frame_read};
ghost use Rattle.parser.specs.Promise.{frame_said, frame_tells, FrameFills, ReadFrame, ReadAgentFrame, LookFrame};

use answer::Read;
use frame::{FrameType, Head, Side, Stop};
use payload::{Counts, Payload};

// A frame that was read: its head, and how many records of each sort it has.
#[derive(Clone, Copy, Debug, PartialEq, Eq)]
pub struct Frame {
    pub head: Head,
    pub counts: Counts,
}

// What the payload of a frame of this type is a list of.
pub fn payload_of(frame_type: u8) -> Payload
    ensures { result ≡ payload_of frame_type }
{
    if frame_type == FrameType::Notify as u8 {
        return Payload::Messages;
    }
    if frame_type == FrameType::Ack as u8 {
        return Payload::Actions;
    }
    Payload::KvList
}

// Reads a frame that was cut out, with its length bytes, and fills the tables with what it holds.
fn read_whole(
    f: &[u8],
    side: Side,
    messages: &mut [u64],
    pairs: &mut [u64],
    actions: &mut [u64],
) -> Result<Read<Frame>, Stop>
    ensures { FrameFills (answered (framed (sender side) (rooms_of messages.old pairs.old actions.old) f.now)) result messages.old messages.new pairs.old pairs.new actions.old actions.new }
{
    let Read {
        value: head,
        used: start,
    } = frame::read_head(f, side)?;
    let kind = payload_of(head.frame_type);
    let Read {
        value: counts,
        used,
    } = payload::read_payload(f, start, kind, messages, pairs, actions)?;
    Ok(Read {
        value: Frame { head, counts },
        used,
    })
}

// Reads the frame at the front of `input`, of a length within the limit, that this side sends.
fn read_side(
    input: &[u8],
    limit: u32,
    side: Side,
    messages: &mut [u64],
    pairs: &mut [u64],
    actions: &mut [u64],
) -> Result<Read<Frame>, Stop>
    ensures { FrameFills (frame_read side limit (rooms_of messages.old pairs.old actions.old) input.now) result messages.old messages.new pairs.old pairs.new actions.old actions.new }
{
    let end = frame::cut(input, limit)?;
    read_whole(&input[..end], side, messages, pairs, actions)
}

// Reads the frame at the front of `input`, of a length within the limit, that HAProxy sends. Such a frame has no actions.
pub fn read_frame(
    input: &[u8],
    limit: u32,
    messages: &mut [u64],
    pairs: &mut [u64],
) -> Result<Read<Frame>, Stop>
    ensures { ReadFrame input.now limit result messages.old messages.new pairs.old pairs.new }
{
    read_side(input, limit, Side::HAProxy, messages, pairs, &mut [])
}

// Reads the frame at the front of `input`, of a length within the limit, that an agent sends. Such a frame has no messages.
pub fn read_agent_frame(
    input: &[u8],
    limit: u32,
    pairs: &mut [u64],
    actions: &mut [u64],
) -> Result<Read<Frame>, Stop>
    ensures { ReadAgentFrame input.now limit result pairs.old pairs.new actions.old actions.new }
{
    read_side(input, limit, Side::Agents, &mut [], pairs, actions)
}

// What reading a frame that was cut out comes to, with tables of such rooms.
fn look_whole(f: &[u8], side: Side, rooms: Counts) -> Result<Read<Frame>, Stop>
    ensures { frame_said result ≡ frame_tells (answered (framed (sender side) rooms f.now)) }
{
    let Read {
        value: head,
        used: start,
    } = frame::read_head(f, side)?;
    let kind = payload_of(head.frame_type);
    let Read {
        value: counts,
        used,
    } = payload::look_payload(f, start, kind, rooms)?;
    Ok(Read {
        value: Frame { head, counts },
        used,
    })
}

// What reading the frame at the front of `input` comes to, that HAProxy sends, with tables of such rooms. It writes nothing.
pub fn look_frame(input: &[u8], limit: u32, rooms: Counts) -> Result<Read<Frame>, Stop>
    ensures { LookFrame input.now limit rooms result }
{
    let end = frame::cut(input, limit)?;
    look_whole(&input[..end], Side::HAProxy, rooms)
}
