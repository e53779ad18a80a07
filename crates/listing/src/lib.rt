// The lines of a frame that was read (docs/RULES.md, "The listing"), written into lent bytes one by one.
//
// No public call has a `requires`: each does its own refusing, and a refusal changes no byte.

#![tactic(auto)]

mod digits;
mod lines;
mod order;
mod parts;

pub use lines::{
    write_action_line, write_end_line, write_frame_line, write_message_line, write_pair_line,
};
pub use order::{write_action_at, write_next_line};

// Behind which lines of a frame: how many of its messages and pairs have theirs, and how many arguments of the last message are to come.
#[derive(Clone, Copy, Debug, Default, PartialEq, Eq)]
pub struct Place {
    pub messages: usize,
    pub pairs: usize,
    pub left: u64,
}

// A line that was written: its bytes, and the place behind it.
#[derive(Clone, Copy, Debug, PartialEq, Eq)]
pub struct Line {
    pub len: usize,
    pub place: Place,
}
