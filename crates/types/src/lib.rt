// Strings and typed data (SPOE.txt, section 3.1): one value on its own, read and written.
//
// No public call has a `requires`: each does its own refusing, and a refusal changes no byte.

#![tactic(auto)]

mod check;
mod read;
mod write;

ghost use Rattle.std.specs.Prelude.{◌≡◌};
ghost use Rattle.types.specs.Value.{sign_extended};

pub use check::{check_part, check_string, check_value, in_range, part_inside, writable};
pub use read::{read_string, typed_data};
pub use write::{measure_value, value_len, write_string, write_value};

// Where some bytes stand: their start, and how many they are.
#[derive(Clone, Copy, Debug, PartialEq, Eq)]
pub struct Span {
    pub start: usize,
    pub len: usize,
}

// A value as the records have it: its kind and two numbers, as docs/RULES.md sets them out for each kind, and the flags of its type byte, the
// upper four bits, which a boolean has as its number.
//
// C has it as these four numbers, so its kind is one of them and no enum.
#[repr(C)]
#[derive(Clone, Copy, Debug, Default, PartialEq, Eq)]
pub struct Value {
    pub kind: u64,
    pub a: u64,
    pub b: u64,
    pub flags: u64,
}

// How many numbers that are.
pub const VALUE_WIDTH: usize = 4;

impl From<[u64; VALUE_WIDTH]> for Value {
    ghost use Rattle.types.specs.Promise.{value_numbers};

    ghost from_gives = { λ numbers value. value_numbers value ≡ numbers };

    fn from(numbers: [u64; VALUE_WIDTH]) -> Value {
        let [kind, a, b, flags] = numbers;
        Value { kind, a, b, flags }
    }
}

impl From<Value> for [u64; VALUE_WIDTH] {
    ghost use Rattle.types.specs.Promise.{value_numbers};

    ghost from_gives = { λ value numbers. numbers ≡ value_numbers value };

    fn from(value: Value) -> [u64; VALUE_WIDTH] {
        [value.kind, value.a, value.b, value.flags]
    }
}

// The low 32 bits, the highest of them repeated above: what a reader keeps of an i32, and what its number has to be where one is written.
pub(crate) fn sign_extend(n: u64) -> u64
    ensures { result ≡ sign_extended n }
{
    let low = n % 0x1_0000_0000;
    if low < 0x8000_0000 {
        return low;
    }
    low + 0xFFFF_FFFF_0000_0000
}
