// A walker over the pairs of a frame, which holds the frame's bytes and a place.
//
// No public call has a `requires`: each does its own refusing.

#![tactic(auto)]

mod steps;

use frame::Pair;
pub use steps::{arguments_of, kv_of, moved, new, next, step_from};

// Where a walk over pairs is: the place of the next one, and how many are to come. A KV list goes on to the end of the bytes instead; it is a flag
// beside the count, since callers keep places and `arguments_of` and `kv_of` promise each number of them.
#[derive(Clone, Copy, Debug, PartialEq, Eq)]
pub struct Place {
    pub at: usize,
    pub left: usize,
    pub kv: bool,
}

// A pair that a step found, with its starts in the frame, and where the walk goes on behind it.
#[derive(Clone, Copy, Debug, PartialEq, Eq)]
pub struct Found {
    pub pair: Pair,
    pub next: Place,
}

// A walker over the pairs of a frame.
#[derive(Clone, Copy)]
pub struct Walker<'a> {
    pub frame: &'a [u8],
    pub place: Place,
}
