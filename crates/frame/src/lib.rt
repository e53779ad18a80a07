// Frames (SPOE.txt, section 3.2): the types (`kind`), the head, written (`write`) and read (`read`), behind the cut by the length. And the records
// that stand for what a payload holds, as tables of 64-bit numbers have them (`table`).

#![tactic(auto)]

mod kind;
mod read;
mod table;
mod write;

use answer::Refusal;
pub use kind::{FrameType, UnknownType};
pub use read::{cut, read_head};
pub use table::{Record, put, record_at};
use types::Value;
pub use write::{head_len, write_head};

// How many numbers a record has in its table.
pub const MESSAGE_WIDTH: usize = 4;

pub const PAIR_WIDTH: usize = 6;

pub const ACTION_WIDTH: usize = 8;

// A pair: where its key stands in the buffer, and its value.
#[repr(C)]
#[derive(Clone, Copy, Debug, Default, PartialEq, Eq)]
pub struct Pair {
    pub start: u64,
    pub len: u64,
    pub value: Value,
}

// An action on a variable sets it, or unsets it. These are numbers, since a table may have any number there, which a writer refuses.
pub const SET_VAR: u64 = 1;

pub const UNSET_VAR: u64 = 2;

// An action: what it does, the variable's scope, and the variable's name and value as a pair.
#[derive(Clone, Copy, Debug, Default, PartialEq, Eq)]
pub struct Action {
    pub verb: u64,
    pub scope: u64,
    pub pair: Pair,
}

// A message: where its name stands in the buffer, and which pairs are its arguments: `count` of them from pair `first` on.
#[derive(Clone, Copy, Debug, Default, PartialEq, Eq)]
pub struct Message {
    pub start: u64,
    pub len: u64,
    pub first: u64,
    pub count: u64,
}

// What stands before the payload: the type, the flags, and the numbers of the stream and of the frame in it. A writer writes any type and flags,
// so these are numbers.
#[derive(Clone, Copy, Debug, PartialEq, Eq)]
pub struct Head {
    pub frame_type: u8,
    pub flags: u32,
    pub stream: u64,
    pub frame: u64,
}

// The side that sends a frame.
#[derive(Clone, Copy, Debug, PartialEq, Eq)]
pub enum Side {
    HAProxy,
    Agents,
}

// Why there is no frame: so many bytes are missing, or it is refused.
#[derive(Clone, Copy, Debug, PartialEq, Eq)]
pub enum Stop {
    Wait(usize),
    Refused(Refusal),
}

impl From<Refusal> for Stop {
    ghost use Rattle.std.specs.Prelude.{◌≡◌};
    ghost use Rattle.frame.specs.declared.Stop.TheVariants as stop;

    ghost from_gives = { λ refusal s. s ≡ stop.Refused refusal };

    fn from(refusal: Refusal) -> Stop {
        Stop::Refused(refusal)
    }
}
