// The head, written.
ghost use Rattle.std.specs.Prelude.{◌≡◌, ◌++◌, ◌∷◌, ◌≤◌, length};
ghost use Rattle.answer.specs.Answer.{written, leaves};
ghost use Rattle.frame.specs.Head.{four_bytes, head_bytes};
ghost use Rattle.answer.specs.Writes.{Writes};

use crate::Head;
use answer::{Reason, Refusal};

// How many bytes the head has, from its type to its second number.
pub fn head_len(head: Head) -> usize
    ensures { result ≡ length (head_bytes head) }
{
    5 + varint::varint_len(head.stream) + varint::varint_len(head.frame)
}

// Writes the four length bytes and the head. `behind` is the length of the frame behind the length bytes.
pub fn write_head(behind: u32, head: Head, out: &mut [u8]) -> Result<usize, Refusal>
    ensures { Writes (written (four_bytes behind ++ head_bytes head)) result out.old out.new }
{
    if out.len() < 4 + head_len(head) {
        return Err(Reason::NoRoom.at(0));
    }
    put_start(behind, head.frame_type, head.flags, out);
    let n = 9 + answer::wrote(varint::encode_varint(head.stream, &mut out[9..]));
    Ok(n + answer::wrote(varint::encode_varint(head.frame, &mut out[n..])))
}

// The nine bytes of fixed places: the length, the type and the flags.
fn put_start(behind: u32, frame_type: u8, flags: u32, out: &mut [u8])
    requires { 9 ≤ length out.old }
    ensures { out.new ≡ leaves (written (four_bytes behind ++ (frame_type ∷ four_bytes flags))) out.old }
{
    out[0] = (behind / 0x100_0000 % 256) as u8;
    out[1] = (behind / 0x1_0000 % 256) as u8;
    out[2] = (behind / 0x100 % 256) as u8;
    out[3] = (behind % 256) as u8;
    out[4] = frame_type;
    out[5] = (flags / 0x100_0000 % 256) as u8;
    out[6] = (flags / 0x1_0000 % 256) as u8;
    out[7] = (flags / 0x100 % 256) as u8;
    out[8] = (flags % 256) as u8;
}
