// Well-formed text: by each byte and the three before it where there are enough, and else step by step.
ghost use Rattle.std.specs.Prelude.{◌≡◌, true, ◌+◌, ◌≤◌, length};
ghost use Rattle.utf8.specs.Text.{is_utf8};
ghost use Rattle.utf8.specs.Inner.{Fits, FitTo, FirstFit, EndsWhole};

use crate::run::{ascii_front, stride};
use crate::step::Step;

// Whether the bytes are well-formed UTF-8.
pub fn is_utf8(bytes: &[u8]) -> bool
    ensures { result ≡ is_utf8 bytes.now }
{
    surely_utf8(bytes) || steps_whole(bytes)
}

// The same, step by step. No index is counted: a step says how many bytes it takes (`run`).
#[tactic(auto, using(crate::proofs::Lossy::is_utf8_none, crate::proofs::Lossy::empty))]
fn steps_whole(mut bytes: &[u8]) -> bool
    ensures { result ≡ is_utf8 bytes.now }
{
    while !bytes.is_empty() {
        let Step::Char(n) = stride(bytes) else {
            return false;
        };
        bytes = &bytes[n..];
    }
    true
}

// Whether the bytes are well-formed, without a step. A yes is sure, and a no may be of bytes that are too few.
pub(crate) fn surely_utf8(bytes: &[u8]) -> bool
    ensures { result ≡ true → is_utf8 bytes.now ≡ true }
{
    let n = ascii_front(bytes);
    n == bytes.len() || all_fit(&bytes[n..])
}

// The same by each byte and the three before it: what a byte may be follows from them alone, so the compiler can take many
// together. The last block may test some twice.
fn all_fit(s: &[u8]) -> bool
    ensures { result ≡ true → is_utf8 s.now ≡ true }
{
    if s.len() < 19 || !first_fit(s) || !ends_whole(s) {
        return false;
    }
    let last = s.len() - 19;
    blocks_fit(s, last) && block_fits(&s[last..])
}

// Whether the first three bytes fit, where nothing stands before them.
fn first_fit(s: &[u8]) -> bool
    requires { 3 ≤ length s.now }
    ensures { result ≡ true → FirstFit s.now }
{
    fits(0, 0, 0, s[0]) & fits(0, 0, s[0], s[1]) & fits(0, s[0], s[1], s[2])
}

// Whether none of the last three bytes wants one behind the end.
fn ends_whole(s: &[u8]) -> bool
    requires { 3 ≤ length s.now }
    ensures { result ≡ true → EndsWhole s.now }
{
    let end = s.len();
    (s[end - 1] < 0xC0) & (s[end - 2] < 0xE0) & (s[end - 3] < 0xF0)
}

// Whether all bytes fit that stand three behind the first `last`, in blocks of 16. More may be tested.
fn blocks_fit(s: &[u8], last: usize) -> bool
    requires { last + 19 ≤ length s.now }
    ensures { result ≡ true → FitTo s.now last }
{
    for at in (0..last).step_by(16) {
        if !block_fits(&s[at..]) {
            return false;
        }
    }
    true
}

// Whether 16 bytes fit, from the fourth on. The loop has no way out before its end.
fn block_fits(s: &[u8]) -> bool
    requires { 19 ≤ length s.now }
    ensures { result ≡ true → FitTo s.now 16 }
{
    let mut all = true;
    for i in 0..16 {
        all &= fits(s[i], s[i + 1], s[i + 2], s[i + 3]);
    }
    all
}

// Whether d can stand behind a, b and c in a text: from 80 to BF exactly where one of them wants it, and as narrow as the
// table's second bytes are.
fn fits(a: u8, b: u8, c: u8, d: u8) -> bool
    ensures { result ≡ true → Fits a b c d }
{
    ((0xC0 <= c) | (0xE0 <= b) | (0xF0 <= a) | (d < 0x80) | ((0xC2 <= d) & (d <= 0xF4)))
        & (((c < 0xC0) & (b < 0xE0) & (a < 0xF0)) | ((0x80 <= d) & (d <= 0xBF)))
        & ((c != 0xE0) | (0xA0 <= d))
        & ((c != 0xED) | (d <= 0x9F))
        & ((c != 0xF0) | (0x90 <= d))
        & ((c != 0xF4) | (d <= 0x8F))
}
