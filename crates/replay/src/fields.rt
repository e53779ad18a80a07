// The fields of a line: numbers as hex digits, byte strings as hex pairs, an empty one as `-`, with one space or comma between.
ghost use Rattle.std.specs.Prelude.{◌≡◌, ◌+◌, ◌<◌, ◌≤◌, IfOk, IfSome, length};

use crate::verdict::Expected;
use std::num::TryFromIntError;
use std::str::Split;

// How many numbers a line has at most, and how many bytes its byte strings have together.
pub(crate) const NUMBERS: usize = 64;

pub(crate) const BYTES: usize = 512;

// How many digits a number has at most.
const DIGITS: usize = 16;

// Why a line has no verdict.
#[derive(Clone, Copy, Debug)]
pub(crate) enum LineError {
    Unread,
}

impl From<TryFromIntError> for LineError {
    fn from(_error: TryFromIntError) -> LineError {
        LineError::Unread
    }
}

// The fields that are left, and how many numbers and bytes they may have.
#[derive(Drop)]
pub(crate) struct Fields<'a> {
    words: Split<'a, [char; 2]>,
    numbers: usize,
    bytes: usize,
}

impl<'a> Fields<'a> {
    pub(crate) fn new(text: &'a str) -> Fields<'a> {
        Fields {
            words: text.split([' ', ',']),
            numbers: NUMBERS,
            bytes: BYTES,
        }
    }

    // The next field as a number.
    pub(crate) fn number(&mut self) -> Result<u64, LineError> {
        self.number_if_any()?.ok_or(LineError::Unread)
    }

    // The next field as a number, where one is left.
    pub(crate) fn number_if_any(&mut self) -> Result<Option<u64>, LineError>
        ensures { IfOk result (λ n. IfSome n (λ _. self.new.numbers + 1 ≡ self.old.numbers)) }
    {
        let Some(word) = self.words.next() else {
            return Ok(None);
        };
        self.numbers = self.numbers.checked_sub(1).ok_or(LineError::Unread)?;
        Ok(Some(number_of(word)?))
    }

    // The next fields, so many as the array has, as numbers.
    pub(crate) fn numbers<const N: usize>(&mut self) -> Result<[u64; N], LineError> {
        let mut numbers = [0; N];
        for number in &mut numbers {
            *number = self.number()?;
        }
        Ok(numbers)
    }

    // The next field as a truth, 0 or 1.
    pub(crate) fn flag(&mut self) -> Result<bool, LineError> {
        match self.number()? {
            0 => Ok(false),
            1 => Ok(true),
            _ => Err(LineError::Unread),
        }
    }

    // ANSWER AT
    pub(crate) fn expected(&mut self) -> Result<Expected, LineError> {
        Ok(Expected {
            answer: self.number()?,
            at: self.number()?,
        })
    }

    // The numbers of so many records, in `room`.
    pub(crate) fn records<'b>(
        &mut self,
        count: u64,
        width: usize,
        room: &'b mut [u64; NUMBERS],
    ) -> Result<&'b [u64], LineError>
        ensures { IfOk result (λ numbers. length numbers.now ≤ 64) }
    {
        let len = usize::try_from(count)?
            .checked_mul(width)
            .ok_or(LineError::Unread)?;
        let numbers = room.get_mut(..len).ok_or(LineError::Unread)?;
        for number in &mut *numbers {
            *number = self.number()?;
        }
        Ok(numbers)
    }

    // All fields that are left, as numbers, in `room`.
    pub(crate) fn rest<'b>(self, room: &'b mut [u64; NUMBERS]) -> Result<&'b [u64], LineError>
        ensures { IfOk result (λ numbers. length numbers.now ≤ self.entry.numbers) }
    {
        let mut count = 0;
        for word in self.words {
            if self.numbers <= count || room.len() <= count {
                return Err(LineError::Unread);
            }
            room[count] = number_of(word)?;
            count += 1;
        }
        Ok(&room[..count])
    }

    // The next field as a byte string, in `room`.
    pub(crate) fn bytes<'b>(&mut self, room: &'b mut [u8; BYTES]) -> Result<&'b [u8], LineError>
        ensures { IfOk result (λ bytes. self.new.bytes + length bytes.now ≡ self.old.bytes) }
    {
        let digits = match self.words.next().ok_or(LineError::Unread)? {
            "" => return Err(LineError::Unread),
            "-" => "",
            word => word,
        };
        let len = digits.len().div_ceil(2);
        self.bytes = self.bytes.checked_sub(len).ok_or(LineError::Unread)?;
        let bytes = room.get_mut(..len).ok_or(LineError::Unread)?;
        for (byte, pair) in bytes.iter_mut().zip(digits.as_bytes().chunks(2)) {
            *byte = byte_of(pair)?;
        }
        Ok(bytes)
    }

    // A line has no more fields than those that were read.
    pub(crate) fn end(mut self) -> Result<(), LineError> {
        match self.words.next() {
            None => Ok(()),
            Some(_) => Err(LineError::Unread),
        }
    }
}

// The number that hex digits spell. A sign and a digit in upper case, which std takes, are none here.
fn number_of(word: &str) -> Result<u64, LineError> {
    if DIGITS < word.len() || !word.bytes().all(|b| digit(b).is_some()) {
        return Err(LineError::Unread);
    }
    u64::from_str_radix(word, 16).map_err(|_| LineError::Unread)
}

// The byte that two hex digits spell.
fn byte_of(pair: &[u8]) -> Result<u8, LineError> {
    let [high, low] = *pair else {
        return Err(LineError::Unread);
    };
    let high = digit(high).ok_or(LineError::Unread)?;
    let low = digit(low).ok_or(LineError::Unread)?;
    Ok(high << 4 | low)
}

// The value of a hex digit, which is in lower case.
fn digit(b: u8) -> Option<u8>
    ensures { IfSome result (λ d. d < 16) }
{
    match b {
        b'0'..=b'9' => Some(b - b'0'),
        b'a'..=b'f' => Some(b - b'a' + 10),
        _ => None,
    }
}
