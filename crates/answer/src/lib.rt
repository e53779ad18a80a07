// What every layer's answers share: why a call refuses and where, and what a reader found.
//
// docs/RULES.md says of each number when it is given and what its place counts.

#![tactic(auto)]

ghost use Rattle.answer.specs.Writes.{read_behind, counted};
ghost use Rattle.std.specs.Prelude.{◌≡◌};

// What calls that answer a number say of a frame that is not whole yet. It is no refusal.
pub const WAIT: u64 = 1;

// Why a call refuses, each under its number.
#[derive(Clone, Copy, Debug, PartialEq, Eq)]
pub enum Reason {
    // A frame declares more than the limit.
    Oversize = 2,
    // Bytes end too soon.
    TooSoon = 3,
    // A frame's type or flags are unknown.
    Unknown = 4,
    // A frame has ABORT set.
    Aborted = 5,
    // A frame is one that the other side sends.
    OtherSide = 6,
    // A number is too large.
    TooLarge = 7,
    // A data type is 10 to 15.
    NoType = 8,
    // A key is met twice.
    MetTwice = 9,
    // A table has no room for a record.
    TableFull = 10,
    // The output is too short.
    NoRoom = 11,
    // A frame to be written is over the limit.
    OverLimit = 12,
    // A size is under 256.
    SizeTooSmall = 13,
    // A record or a frame's metadata is not writable.
    NotWritable = 14,
    // A text is not UTF-8.
    NotText = 15,
    // A record points outside its buffer, or a count outside its table.
    Outside = 16,
    // A message has more arguments than its count byte can say.
    TooMany = 17,
    // An action, its argument count or its scope is unknown.
    UnknownAction = 18,
    // A number's tenth byte has more than the four bits that are left of 64.
    NotFitting = 19,
}

// Why a call refuses, and where.
#[derive(Clone, Copy, Debug, PartialEq, Eq)]
pub struct Refusal {
    pub reason: Reason,
    pub place: usize,
}

// What a reader found at the front of some bytes, and how many of them it took.
#[derive(Clone, Copy, Debug, PartialEq, Eq)]
pub struct Read<T> {
    pub value: T,
    pub used: usize,
}

impl Reason {
    // The refusal for this reason at a place.
    pub fn at(self, place: usize) -> Refusal
        ensures { result ≡ record { reason = self; place = place } }
    {
        Refusal {
            reason: self,
            place,
        }
    }
}

impl From<Reason> for u64 {
    ghost use Rattle.answer.specs.Reason.{number_of};

    ghost from_gives = { λ reason n. n ≡ number_of reason };

    fn from(reason: Reason) -> u64 {
        reason as u64
    }
}

// What was read behind n other bytes, told from the front of the whole.
pub fn behind<T>(read: Result<Read<T>, Refusal>, n: usize) -> Result<Read<T>, Refusal>
    ensures { result ≡ read_behind n read }
{
    match read {
        Ok(Read { value, used }) => Ok(Read {
            value,
            used: n.saturating_add(used),
        }),
        Err(Refusal { reason, place }) => Err(reason.at(n.saturating_add(place))),
    }
}

// How many bytes a writer wrote: none after a refusal, whatever that is.
pub fn wrote<E: Drop>(answer: Result<usize, E>) -> usize
    ensures { result ≡ counted answer }
{
    answer.unwrap_or(0)
}
