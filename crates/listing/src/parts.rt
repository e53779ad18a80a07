// A line as its parts, one behind the other: all are measured before the first byte is written.
ghost use Rattle.std.specs.Prelude.{◌≡◌, ◌≤◌, length};
ghost use Rattle.answer.specs.Answer.{written};
ghost use Rattle.answer.specs.Table.{joined};
ghost use Rattle.answer.specs.Writes.{Writes};
ghost use Rattle.types.specs.Inner.{Puts};
ghost use Rattle.listing.specs.Inner.{text_of};

use crate::digits::{digits_len, put_digits, put_shown, put_signed, shown_len, signed_len};
use answer::{Reason, Refusal};

// A part of a line.
#[derive(Clone, Copy)]
pub(crate) enum Part<'a> {
    // Words as they stand.
    Words(&'a [u8]),
    // A number.
    Decimal(u64),
    // A number that may be negative.
    Signed(u64),
    // Bytes, two digits for each, or a dash where there are none.
    Shown(&'a [u8]),
}

impl Part<'_> {
    // How many bytes it has.
    fn len(self) -> u64
        ensures { result ≡ length (text_of self.entry) }
    {
        match self {
            Part::Words(words) => words.len() as u64,
            Part::Decimal(n) => digits_len(n) as u64,
            Part::Signed(n) => signed_len(n) as u64,
            Part::Shown(bytes) => shown_len(bytes),
        }
    }

    // Writes it where there is room.
    fn put(self, out: &mut [u8]) -> usize
        requires { length (text_of self) ≤ length out.old }
        ensures { Puts (written (text_of self.entry)) result out.old out.new }
    {
        match self {
            Part::Words(words) => put_words(words, out),
            Part::Decimal(n) => put_digits(n, out),
            Part::Signed(n) => put_signed(n, out),
            Part::Shown(bytes) => put_shown(bytes, out),
        }
    }
}

// Writes words as they stand.
fn put_words(words: &[u8], out: &mut [u8]) -> usize
    requires { length words.now ≤ length out.old }
    ensures { Puts (written words.now) result out.old out.new }
{
    out[..words.len()].copy_from_slice(words);
    words.len()
}

// Writes a line where there is room for all of it.
pub(crate) fn write_line(parts: &[Part], out: &mut [u8]) -> Result<usize, Refusal>
    ensures { Writes (written (joined text_of parts.now)) result out.old out.new }
{
    let mut room = out.len() as u64;
    for part in parts {
        let len = part.len();
        if room < len {
            return Err(Reason::NoRoom.at(0));
        }
        room -= len;
    }
    let mut at = 0;
    for part in parts {
        at += part.put(&mut out[at..]);
    }
    Ok(at)
}
