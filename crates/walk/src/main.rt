// Walks over the pairs of two frames, and writes a line for each key and one for where the walk ends: a HAPROXY-HELLO, and the arguments of a
// NOTIFY's only message.

#![tactic(auto)]

use std::io;
use walker::Place;

fn main(rt: HostRuntime) -> io::Result<()> {
    // A HAPROXY-HELLO with two pairs, "a" with true and "max" with the u32 16380, and nothing behind it.
    let hello = [
        0u8, 0, 0, 18, 1, 0, 0, 0, 1, 0, 0, 1, 97, 17, 3, 109, 97, 120, 3, 252, 240, 6,
    ];
    walk(&rt, &hello, walker::kv_of(&hello))?;
    // A NOTIFY with the message "m" of two arguments, "x" with null and "" with false.
    let notify = [
        0u8, 0, 0, 15, 3, 0, 0, 0, 1, 1, 1, 1, 109, 2, 1, 120, 0, 0, 1,
    ];
    let message = frame::Message {
        start: 12,
        len: 1,
        first: 0,
        count: 2,
    };
    walk(&rt, &notify, walker::arguments_of(message))?;
    // One argument more than there is.
    walk(
        &rt,
        &notify,
        Place {
            at: 14,
            left: 3,
            kv: false,
        },
    )
}

// Sixteen steps at most: no frame here has so many pairs.
fn walk(rt: &impl Print, bytes: &[u8], from: Place) -> io::Result<()> {
    let mut place = from;
    for _ in 0..16 {
        match walker::step_from(bytes, place) {
            Ok(Some(found)) => {
                key(
                    rt,
                    bytes,
                    found.pair.start as usize,
                    found.pair.len as usize,
                )?;
                place = found.next;
            },
            Ok(None) => {
                return rt.write_all(b"end\n");
            },
            Err(r) => {
                let number = u64::from(r.reason);
                let at = r.place;
                return println!(rt; "refused {number} at {at}");
            },
        }
    }
    Ok(())
}

// A key in quotes, on its own line.
fn key(rt: &impl Print, bytes: &[u8], start: usize, len: usize) -> io::Result<()> {
    let Some(key) = bytes.get(start..).and_then(|rest| rest.get(..len)) else {
        return Ok(());
    };
    rt.write_all(b"\"")?;
    rt.write_all(key)?;
    rt.write_all(b"\"\n")
}
