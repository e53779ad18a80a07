// Lossy text: each maximal subpart of an ill-formed sequence becomes EF BF BD.
ghost use Rattle.std.specs.Prelude.{◌≡◌, ◌≤◌, length, leb};
ghost use Rattle.answer.specs.Answer.{written, leaves};
ghost use Rattle.utf8.specs.Text.{step_size, becomes, lossy};
ghost use Rattle.utf8.specs.Inner.{seen};
ghost use Rattle.answer.specs.Writes.{Writes};

use crate::run::stride;
use crate::step::{REPLACEMENT, Step};
use crate::well::surely_utf8;
use answer::{Reason, Refusal};

// Writes the lossy text of the bytes at the front of `out`.
pub fn lossy_text(bytes: &[u8], out: &mut [u8]) -> Result<usize, Refusal>
    ensures { Writes (written (lossy bytes.now)) result out.old out.new }
{
    if bytes.len() <= out.len() {
        if surely_utf8(bytes) {
            copy(bytes, out);
            return Ok(bytes.len());
        }
    }
    lossy_steps(bytes, out)
}

// The same, step by step.
fn lossy_steps(bytes: &[u8], out: &mut [u8]) -> Result<usize, Refusal>
    ensures { Writes (written (lossy bytes.now)) result out.old out.new }
{
    if !has_room(bytes, out.len()) {
        return Err(Reason::NoRoom.at(0));
    }
    Ok(write_lossy(bytes, out))
}

// Whether so many bytes are enough for the lossy text.
pub fn has_room(bytes: &[u8], room: usize) -> bool
    ensures { result ≡ leb (length (lossy bytes.now)) room }
{
    // A byte becomes at most three.
    bytes.len() <= room / 3 || steps_room(bytes, room)
}

// The same, step by step. No index is counted: a step says how many bytes it takes (`run`).
#[tactic(auto, using(crate::proofs::Advance::room_on, crate::proofs::Advance::room_off, crate::proofs::Advance::room_none, crate::proofs::Lossy::empty))]
fn steps_room(mut bytes: &[u8], mut room: usize) -> bool
    ensures { result ≡ leb (length (lossy bytes.now)) room }
{
    while !bytes.is_empty() {
        let step = stride(bytes);
        let needs = step.text(bytes).len();
        if room < needs {
            return false;
        }
        room -= needs;
        bytes = &bytes[step.len()..];
    }
    true
}

// Writes the lossy text, where there is room. No index is counted: a step says how many bytes it takes (`run`).
fn write_lossy(mut bytes: &[u8], out: &mut [u8]) -> usize
    requires { length (lossy bytes.now) ≤ length out.old }
    ensures value { result ≡ length (lossy bytes.now) }
    ensures out_after { out.new ≡ leaves (written (lossy bytes.now)) out.old }
{
    let mut n = 0;
    while !bytes.is_empty() {
        let step = stride(bytes);
        put(step, bytes, &mut out[n..]);
        n += step.text(bytes).len();
        bytes = &bytes[step.len()..];
    }
    n
}

// Writes what a step at the front of `s` becomes, where there is room. Tried: one copy of `step.text(s)` takes 11,032 instructions for 300
// bytes with ill-formed ones, and this 9,065.
fn put(step: Step, s: &[u8], out: &mut [u8])
    requires step_in_bounds { step_size (seen step) ≤ length s.now }
    requires step_in_bounds_2 { length (becomes (seen step) s.now) ≤ length out.old }
    ensures { out.new ≡ leaves (written (becomes (seen step) s.now)) out.old }
{
    match step {
        Step::End => {}
        Step::Char(n) => copy(&s[..n], out),
        Step::Mark(_) => copy(&REPLACEMENT, out),
    }
}

// Writes some bytes, where there is room. `copy_from_slice` calls memmove, and the shared library asks for no C library.
fn copy(s: &[u8], out: &mut [u8])
    requires { length s.now ≤ length out.old }
    ensures { out.new ≡ leaves (written s.now) out.old }
{
    for i in 0..s.len() {
        out[i] = s[i];
    }
}
