// The frames of a whole receive buffer, read in one call: what `parser` reads of each, one behind the other, with a row for each frame.
//
// The public call has no `requires`: it does its own refusing.

#![tactic(auto)]

ghost use Rattle.std.specs.Prelude.{◌≡◌, ◌+◌, ◌-◌, ◌/◌, ◌^◌, ◌≤◌, ◌<◌, length};
ghost use Rattle.answer.specs.Answer.{written, leaves};
ghost use Rattle.buffer.specs.Buffer.{row_width};
ghost use Rattle.buffer.specs.Promise.{ReadFrames};
ghost use Rattle.buffer.specs.Inner.{stop_of, numbers_of};

use answer::{Read, Reason};
use frame::{FrameType, MESSAGE_WIDTH, PAIR_WIDTH, Stop};
use parser::Frame;
use payload::Counts;

// How many numbers a row has in its table: where the frame starts in the input, and how many bytes it took; its type, its stream and its id; and the
// first of its messages (NOTIFY) or of its pairs, and how many.
pub const ROW_WIDTH: usize = 7;

// How much was read: frames, their messages and pairs, and the bytes that they took together.
#[derive(Clone, Copy, Debug, Default, PartialEq, Eq)]
pub struct Totals {
    pub frames: usize,
    pub messages: usize,
    pub pairs: usize,
    pub bytes: usize,
}

// What is told: how much was read, and what stopped it there, with the place of a refusal in its own frame.
#[derive(Clone, Copy, Debug, PartialEq, Eq)]
pub struct FramesRead {
    pub totals: Totals,
    pub stop: Stop,
}

impl Totals {
    // How much was read with one frame more.
    fn with_read(self, read: Read<Frame>) -> Totals
        requires frames_bound { self.frames + 1 < 2 ^ 64 }
        requires messages_bound { self.messages + read.value.counts.messages < 2 ^ 64 }
        requires pairs_bound { self.pairs + read.value.counts.pairs < 2 ^ 64 }
        requires used_bound { self.bytes + read.used < 2 ^ 64 }
        ensures { result ≡ record { frames = self.frames + 1; messages = self.messages + read.value.counts.messages; pairs = self.pairs + read.value.counts.pairs; bytes = self.bytes + read.used } }
    {
        Totals {
            frames: self.frames + 1,
            messages: self.messages + read.value.counts.messages,
            pairs: self.pairs + read.value.counts.pairs,
            bytes: self.bytes + read.used,
        }
    }
}

// What stops it where no row is left: an accepted frame is then refused, behind that frame.
fn stop_of(answer: Result<Read<Frame>, Stop>) -> Stop
    ensures { result ≡ stop_of answer }
{
    match answer {
        Ok(read) => Stop::Refused(Reason::TableFull.at(read.used)),
        Err(stop) => stop,
    }
}

// Writes the row of a frame before which so much was read.
fn put_row(before: Totals, read: Read<Frame>, table: &mut [u64])
    requires { row_width ≤ length table.old }
    ensures { table.new ≡ leaves (written (numbers_of before read.value.head read.value.counts read.used)) table.old }
{
    let Read {
        value: Frame { head, counts },
        used,
    } = read;
    let (first, count) = if head.frame_type == FrameType::Notify as u8 {
        (before.messages, counts.messages)
    } else {
        (before.pairs, counts.pairs)
    };
    let numbers = [
        before.bytes as u64,
        used as u64,
        head.frame_type as u64,
        head.stream,
        head.frame,
        first as u64,
        count as u64,
    ];
    let _ = frame::put(&numbers, table);
}

// Reads the frames that HAProxy sent, from the front of `input` on, each of a length within the limit, until one does not come out or there is no row.
pub fn read_frames(
    input: &[u8],
    limit: u32,
    rows: &mut [u64],
    messages: &mut [u64],
    pairs: &mut [u64],
) -> FramesRead
    ensures { ReadFrames input.now limit result rows.old rows.new messages.old messages.new pairs.old pairs.new }
{
    let mut totals = Totals::default();
    for row in 0..rows.len() / ROW_WIDTH {
        let at = totals.bytes;
        let m = totals.messages * MESSAGE_WIDTH;
        let p = totals.pairs * PAIR_WIDTH;
        match parser::read_frame(&input[at..], limit, &mut messages[m..], &mut pairs[p..]) {
            Ok(read) => {
                let to = row * ROW_WIDTH;
                put_row(totals, read, &mut rows[to..]);
                totals = totals.with_read(read);
            },
            Err(stop) => return FramesRead { totals, stop },
        }
    }
    let rooms = Counts {
        messages: messages.len() / MESSAGE_WIDTH - totals.messages,
        pairs: pairs.len() / PAIR_WIDTH - totals.pairs,
        actions: 0,
    };
    let at = totals.bytes;
    FramesRead {
        totals,
        stop: stop_of(parser::look_frame(&input[at..], limit, rooms)),
    }
}
