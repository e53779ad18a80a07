// Texts that are the same: equal bytes first, and then both lossy texts at once.
ghost use Rattle.std.specs.Prelude.{◌≡◌, true, ◌≤◌, length, take};
ghost use Rattle.utf8.specs.Text.{same_bytes, same_text};
ghost use Rattle.utf8.specs.Inner.{Walks};

use crate::rows::front_step;
use crate::run::all_ascii;

// Whether the lossy texts are the same.
pub fn same_text(a: &[u8], b: &[u8]) -> bool
    ensures { result ≡ same_text a.now b.now }
{
    // The same bytes have the same lossy text, and a comparison of blocks tells them.
    if surely_same(a, b) {
        return true;
    }
    same_steps(a, b)
}

// Whether both have the same bytes. A yes is sure, and a no may be of bytes that are too few. The last eight may be tested twice.
// Tried: std's `==` takes 70 to 87 instructions for 8 to 32 bytes, where this takes 34 to 54; and a `for` over `step_by(8)` takes seven for
// each eight bytes, where the loop by hand takes six.
fn surely_same(a: &[u8], b: &[u8]) -> bool
    ensures { result ≡ true → a.now ≡ b.now }
{
    if a.len() < 8 || a.len() != b.len() {
        return false;
    }
    let last = a.len() - 8;
    let mut at = 0;
    while at < last {
        if !all_same::<8>(&a[at..], &b[at..]) {
            return false;
        }
        at += 8;
    }
    all_same::<8>(&a[last..], &b[last..])
}

// Whether the first N bytes are the same. The loop has no way out before its end, so the compiler can take them together.
#[tactic(auto, using(crate::proofs::Same::same_test, crate::proofs::Same::same_refl))]
fn all_same<const N: usize>(a: &[u8], b: &[u8]) -> bool
    requires in_bounds { N ≤ length a.now }
    requires in_bounds_2 { N ≤ length b.now }
    ensures { result ≡ same_bytes (take N a.now) (take N b.now) }
{
    let mut same = true;
    for i in 0..N {
        same &= a[i] == b[i];
    }
    same
}

// The same, by walking both at once, in steps that may take more bytes of one than of the other, so neither has an index to count.
fn same_steps(mut a: &[u8], mut b: &[u8]) -> bool
    ensures { result ≡ same_text a.now b.now }
{
    while !a.is_empty() {
        let Some((m, n)) = both_stride(a, b) else {
            return false;
        };
        a = &a[m..];
        b = &b[n..];
    }
    b.is_empty()
}

// How far one can go on at once in both, if they start in the same way.
fn both_stride(a: &[u8], b: &[u8]) -> Option<(usize, usize)>
    ensures { Walks a.now b.now result }
{
    if 8 <= a.len() && 8 <= b.len() && all_ascii::<8>(a) && all_same::<8>(a, b) {
        return Some((8, 8));
    }
    both_step(a, b)
}

// A step of each.
fn both_step(a: &[u8], b: &[u8]) -> Option<(usize, usize)>
    ensures { Walks a.now b.now result }
{
    let (x, y) = (front_step(a), front_step(b));
    if !same_bytes(x.text(a), y.text(b)) {
        return None;
    }
    Some((x.len(), y.len()))
}

// Whether they are the same bytes. Tried: std's `==` is a call, for which `same_text` saves registers first, and takes 50 instructions for
// eight bytes, and not 34.
fn same_bytes(a: &[u8], b: &[u8]) -> bool
    ensures { result ≡ same_bytes a.now b.now }
{
    a.len() == b.len() && a.iter().zip(b).all(|(x, y)| x == y)
}
