// Strides: over all ASCII that stands at the front, in blocks as long as there are some, or over one step.
ghost use Rattle.std.specs.Prelude.{◌≡◌, true, ◌<◌, ◌≤◌, length, take};
ghost use Rattle.utf8.specs.Inner.{seen, ascii, AsciiTo, Advances};

use crate::rows::front_step;
use crate::step::Step;

// How far one can go on at once from the front of `s`: over all ASCII that stands there, or over a step. Those who go on cut that much off
// their slice in a `while`: an iterator would have to hand out the bytes that the step stands in front of as well, and be no shorter.
#[tactic(auto, using(crate::proofs::Ascii::ascii_well, crate::proofs::Advance::step_advances, crate::proofs::Advance::text_advances))]
pub(crate) fn stride(s: &[u8]) -> Step
    ensures { Advances s.now (seen result) }
{
    let n = ascii_front(s);
    if 0 < n {
        return Step::Char(n);
    }
    front_step(s)
}

// How many bytes of ASCII stand at the front.
#[tactic(auto, using(crate::proofs::Ascii::ascii_to_none))]
pub(crate) fn ascii_front(s: &[u8]) -> usize
    ensures { AsciiTo s.now result }
{
    // Where other scripts go on, the tests of many bytes are not begun.
    if s.is_empty() || !s[0].is_ascii() {
        return 0;
    }
    let n = ascii_blocks::<32>(s, 0);
    if ascii_rest(s, n) {
        return s.len();
    }
    let m = ascii_blocks::<8>(s, n);
    if ascii_rest(s, m) {
        return s.len();
    }
    ascii_run(s, m)
}

// Whether all bytes are ASCII, where the first n are: by the last 32 or eight, or the first and the last four, which may be tested
// twice. A yes is sure, and a no may be of bytes that are too few.
fn ascii_rest(s: &[u8], n: usize) -> bool
    requires { AsciiTo s.now n }
    ensures { result ≡ true → AsciiTo s.now (length s.now) }
{
    let len = s.len();
    if 32 <= len {
        let from = len - 32;
        return from <= n && all_ascii::<32>(&s[from..]);
    }
    if 8 <= len {
        let from = len - 8;
        return from <= n && all_ascii::<8>(&s[from..]);
    }
    if 4 <= len {
        let from = len - 4;
        return all_ascii::<4>(s) & all_ascii::<4>(&s[from..]);
    }
    false
}

// How many bytes of ASCII stand at the front, where the first n are: byte by byte.
#[tactic(auto, using(crate::proofs::Ascii::ascii_to_one))]
fn ascii_run(s: &[u8], n: usize) -> usize
    requires { AsciiTo s.now n }
    ensures { AsciiTo s.now result }
{
    for at in n..s.len() {
        if !s[at].is_ascii() {
            return at;
        }
    }
    s.len()
}

// As many of them as come in blocks of N, where the first n are.
fn ascii_blocks<const N: usize>(s: &[u8], n: usize) -> usize
    requires some { 0 < N }
    requires known { AsciiTo s.now n }
    ensures { AsciiTo s.now result }
{
    let mut at = n;
    for block in s[n..].chunks_exact(N) {
        if !all_ascii::<N>(block) {
            break;
        }
        at += N;
    }
    at
}

// Whether the first N bytes are ASCII. The loop has no way out before its end, so the compiler can take them together.
#[tactic(auto, using(crate::proofs::Ascii::ascii_test))]
pub(crate) fn all_ascii<const N: usize>(s: &[u8]) -> bool
    requires { N ≤ length s.now }
    ensures { result ≡ ascii (take N s.now) }
{
    let mut all = true;
    for i in 0..N {
        all &= s[i].is_ascii();
    }
    all
}
