// Numbers and bytes as text: measured, and written at the front of some bytes where there is room.
ghost use Rattle.std.specs.Prelude.{◌≡◌, ◌≤◌, ◌<◌, ◌^◌, length};
ghost use Rattle.answer.specs.Answer.{written};
ghost use Rattle.types.specs.Inner.{Puts};
ghost use Rattle.listing.specs.Digits.{decimal, signed, shown, glyph as glyph_of};

const DASH: u8 = b'-';

// The first number of 64 bits that is negative.
const NEGATIVE: u64 = 0x8000_0000_0000_0000;

// How many decimal digits n has. It goes on by what is left of the number, so there is no range to go over.
pub(crate) fn digits_len(n: u64) -> usize
    ensures { result ≡ length (decimal n) }
{
    let mut len = 1;
    let mut rest = n;
    while 10 <= rest {
        len += 1;
        rest /= 10;
    }
    len
}

// How many bytes a number has that may be negative.
#[tactic(auto, using(crate::proofs::Decimal::decimal_most), unfolding(crate::specs::Digits::signed))]
pub(crate) fn signed_len(n: u64) -> usize
    ensures { result ≡ length (signed n) }
{
    if n < NEGATIVE {
        return digits_len(n);
    }
    1 + digits_len(u64::MAX - n + 1)
}

// How many bytes stand for bytes.
#[tactic(auto, using(crate::proofs::Text::hex_length, crate::proofs::Text::shown_none, crate::proofs::Text::shown_some))]
pub(crate) fn shown_len(bytes: &[u8]) -> u64
    ensures { result ≡ length (shown bytes.now) }
{
    if bytes.is_empty() {
        return 1;
    }
    2 * bytes.len() as u64
}

// A digit below 16.
fn glyph(d: u8) -> u8
    requires { d < 16 }
    ensures { result ≡ glyph_of d }
{
    if d < 10 { 48 + d } else { 87 + d }
}

// Writes the decimal digits of n, the last first.
pub(crate) fn put_digits(n: u64, out: &mut [u8]) -> usize
    requires { length (decimal n) ≤ length out.old }
    ensures { Puts (written (decimal n)) result out.old out.new }
{
    let len = digits_len(n);
    let mut rest = n;
    for at in (0..len).rev() {
        out[at] = glyph((rest % 10) as u8);
        rest /= 10;
    }
    len
}

// Writes a number that may be negative.
#[tactic(auto, unfolding(crate::specs::Digits::signed))]
pub(crate) fn put_signed(n: u64, out: &mut [u8]) -> usize
    requires { length (signed n) ≤ length out.old }
    ensures { Puts (written (signed n)) result out.old out.new }
{
    if n < NEGATIVE {
        return put_digits(n, out);
    }
    out[0] = DASH;
    1 + put_digits(u64::MAX - n + 1, &mut out[1..])
}

// Writes bytes, two digits for each, or a dash where there are none.
pub(crate) fn put_shown(bytes: &[u8], out: &mut [u8]) -> usize
    requires { length (shown bytes.now) ≤ length out.old }
    ensures { Puts (written (shown bytes.now)) result out.old out.new }
{
    if bytes.is_empty() {
        out[0] = DASH;
        return 1;
    }
    let mut at = 0;
    for byte in bytes {
        out[at] = glyph(byte / 16);
        out[at + 1] = glyph(byte % 16);
        at += 2;
    }
    at
}
