// Payloads, read (SPOE.txt, sections 3.2 and 3.4): KV lists, messages and actions.
//
// Every pass over a payload goes by one step (`next`): what comes next is a pair, a message, an action, the end or a refusal. Looking is the item
// with its tests (`look`), and writes nothing; filling is the item with its store (`fill`), of a payload that is accepted; taking is both
// (`take`), into tables of its own, for a payload that is small. No public call has a `requires`: each does its own refusing.

#![tactic(auto)]

mod action;
mod fill;
mod look;
mod next;
mod pair;
mod read;
mod take;

use answer::Refusal;
use frame::{Action, Message, Pair};
pub use next::next_item;
pub use pair::{pair_from, read_pair};
pub use read::{look_payload, read_payload};

// What a payload is a list of: pairs with keys that are met once, messages with their arguments, or actions.
#[derive(Clone, Copy, Debug, PartialEq, Eq)]
pub enum Payload {
    KvList,
    Messages,
    Actions,
}

// How many messages, pairs and actions: those that were read, or those that tables have room for.
#[derive(Clone, Copy, Debug, PartialEq, Eq)]
pub struct Counts {
    pub messages: usize,
    pub pairs: usize,
    pub actions: usize,
}

// How far a pass is: the place, how many arguments of the last message are to come, and how many records were met.
#[derive(Clone, Copy, Debug, PartialEq, Eq, Default)]
pub struct Cursor {
    pub at: usize,
    pub left: usize,
    pub messages: usize,
    pub pairs: usize,
    pub actions: usize,
}

// What comes next, and where it ends.
#[derive(Clone, Copy, Debug, PartialEq, Eq)]
pub enum Item {
    Pair { pair: Pair, end: usize },
    Message { message: Message, end: usize },
    Action { action: Action, end: usize },
}

// Why a pass was refused, and where it stood then.
#[derive(Clone, Copy)]
pub(crate) struct Halt {
    pub refusal: Refusal,
    pub cursor: Cursor,
}
