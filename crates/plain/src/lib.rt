// Whether two keys are the same, the plain way: both lossy texts are written out, and their bytes compared. `utf8::same_text` answers the
// same without the two buffers.
//
// The public call has no `requires`, and a refusal changes no byte.

#![tactic(auto)]

ghost use Rattle.plain.specs.Promise.{SameTextPlain};

use answer::{Reason, Refusal};

// Writes the lossy text of `a` at the front of `a_text` and that of `b` at the front of `b_text`, and compares them.
pub fn same_text_plain(
    a: &[u8],
    b: &[u8],
    a_text: &mut [u8],
    b_text: &mut [u8],
) -> Result<bool, Refusal>
    ensures { SameTextPlain a.now b.now result a_text.old a_text.new b_text.old b_text.new }
{
    // The first text is only measured until the second is written: so a refusal of either finds both buffers as they were.
    if !utf8::has_room(a, a_text.len()) {
        return Err(Reason::NoRoom.at(0));
    }
    let b_len = utf8::lossy_text(b, b_text)?;
    // It was measured, so it is not refused.
    let a_len = utf8::lossy_text(a, a_text)?;
    if a_len != b_len {
        return Ok(false);
    }
    for i in 0..a_len {
        if a_text[i] != b_text[i] {
            return Ok(false);
        }
    }
    Ok(true)
}
