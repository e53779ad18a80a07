// A walker over the pairs of a KV list or of a message. Its step takes it apart and calls `step_at`, which reads the pair at a place.
ghost use Rattle.std.specs.Prelude.{◌≡◌};
ghost use Rattle.walker.specs.Walk.{comes, after_place, behind_number, arguments_place, kv_of};
ghost use Rattle.walker.specs.Promise.{New, Moved, StepFrom, Next};

use crate::{Found, Place, Walker};
use answer::{Read, Refusal};
use frame::Message;

// Where the number that stands at `at` ends; the end of the bytes where none does.
fn behind_number(frame: &[u8], at: usize) -> usize
    ensures { result ≡ behind_number frame.now at }
{
    let Some(rest) = frame.get(at..) else {
        return frame.len();
    };
    match varint::decode_varint(rest) {
        Ok(Read { value: _, used }) => at + used,
        Err(_) => frame.len(),
    }
}

// The place of the KV list of a frame, which stands behind the numbers of its stream and of the frame in it.
#[tactic(auto, unfolding(crate::specs::Walk::kv_of))]
pub fn kv_of(frame: &[u8]) -> Place
    ensures { result ≡ kv_of frame.now }
{
    Place {
        at: behind_number(frame, behind_number(frame, 9)),
        left: 0,
        kv: true,
    }
}

// The place of a message's arguments, which stand behind its name and its count byte. A place that does not fit 64 bits is the largest one, which no
// bytes reach.
#[tactic(auto, unfolding(crate::specs::Walk::arguments_place))]
pub fn arguments_of(message: Message) -> Place
    ensures { result ≡ arguments_place message }
{
    let name_end = message.start.saturating_add(message.len);
    Place {
        at: name_end.saturating_add(1) as usize,
        left: message.count as usize,
        kv: false,
    }
}

impl Place {
    // Whether a pair is to come.
    fn comes(self, frame: &[u8]) -> bool
        ensures { result ≡ comes frame.now self }
    {
        if self.kv {
            self.at < frame.len()
        } else {
            0 < self.left
        }
    }

    // Where the walk goes on behind a pair that ends there.
    fn behind(self, end: usize) -> Place
        ensures { result ≡ after_place self end }
    {
        Place {
            at: end,
            left: self.left.saturating_sub(1),
            ..self
        }
    }
}

// The step of a walk over the pairs of these bytes.
pub(crate) fn step_at(frame: &[u8], place: Place) -> Result<Option<Found>, Refusal>
    ensures { StepFrom frame.now place result }
{
    if !place.comes(frame) {
        return Ok(None);
    }
    let Read { value: pair, used } = payload::pair_from(frame, place.at)?;
    Ok(Some(Found {
        pair,
        next: place.behind(used),
    }))
}

// The walker over a frame's bytes, at a place of it.
pub fn new<'a>(frame: &'a [u8], place: Place) -> Walker<'a>
    ensures { New frame.entry place result }
{
    Walker { frame, place }
}

// The same walker at another place.
pub fn moved<'a>(w: Walker<'a>, place: Place) -> Walker<'a>
    ensures { Moved w.entry place result }
{
    Walker { place, ..w }
}

// The walker's step.
pub fn next<'a>(w: Walker<'a>) -> Result<Option<Found>, Refusal>
    ensures { Next w.entry result }
{
    step_at(w.frame, w.place)
}

// The step of a walker that is made for it: for callers that hold plain slices.
pub fn step_from(frame: &[u8], place: Place) -> Result<Option<Found>, Refusal>
    ensures { StepFrom frame.now place result }
{
    next(new(frame, place))
}
