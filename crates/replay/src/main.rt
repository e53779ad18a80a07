// Replays lists of answers (`data/`) on the port: how many agree, and the number of each line that does not. `marked.txt` has the worked
// examples of docs/RULES.md, the others what the Rust answers (made by `oracle/run vectors`; 19 is the rules').
//
// A line is a letter, a space and fields with one space or comma between: numbers as hex digits, byte strings as hex pairs, an empty one
// as `-`. oracle/README.md says what each letter stands for. A line that starts with # is a comment.

#![tactic(auto)]

mod fields;
mod frames;
mod parts;
mod verdict;

ghost use Rattle.std.specs.Prelude.{◌≤◌, IfOk, length};

use fields::{Fields, LineError};
use std::fs::File;
use std::io;
use std::io::Read;
use std::rt::Files;
use verdict::{Counts, Verdict};

// How many bytes of a list are read at most.
const TEXT: usize = 65_536;

fn main(rt: HostRuntime) -> io::Result<()> {
    for name in [
        "marked.txt",
        "numbers.txt",
        "text.txt",
        "values.txt",
        "hello.txt",
    ] {
        replay(&rt, name)?;
    }
    Ok(())
}

fn replay(rt: &(impl Files + Print), name: &str) -> io::Result<()> {
    let Ok(mut file) = File::open(rt, name) else {
        return println!(rt; "{name} cannot be opened");
    };
    let mut text = [0; TEXT];
    let n = read_full(&mut file, &mut text)?;
    let counts = lines(rt, &text[..n])?;
    println!(rt; "{name}: {counts}")
}

// Reads until the buffer is full or the file ends; how many bytes the buffer has then.
fn read_full(file: &mut impl Read, buffer: &mut [u8]) -> io::Result<usize>
    ensures { IfOk result (λ n. n ≤ length buffer.new) }
{
    let mut n = 0;
    while n < buffer.len() {
        let more = file.read(&mut buffer[n..])?;
        if more == 0 {
            return Ok(n);
        }
        n += more;
    }
    Ok(n)
}

// Judges each line but comments, and says which do not agree.
fn lines(rt: &impl Print, text: &[u8]) -> io::Result<Counts> {
    let mut counts = Counts::default();
    for (number, line) in (1u64..).zip(text.split_inclusive(|&b| b == b'\n')) {
        if line.starts_with(b"#") {
            continue;
        }
        let verdict = judge(line.strip_suffix(b"\n").unwrap_or(line));
        counts.add(verdict);
        if verdict != Verdict::Agrees {
            println!(rt; "line {number} {verdict}")?;
        }
    }
    Ok(counts)
}

fn judge(line: &[u8]) -> Verdict {
    match agrees(line) {
        Ok(true) => Verdict::Agrees,
        Ok(false) => Verdict::Differs,
        Err(LineError::Unread) => Verdict::Unread,
    }
}

// Whether the port answers what the line has. No field has a byte that is not ASCII.
fn agrees(line: &[u8]) -> Result<bool, LineError> {
    let line = str::from_utf8(line).map_err(|_| LineError::Unread)?;
    let (letter, text) = line.split_once(' ').ok_or(LineError::Unread)?;
    let fields = Fields::new(text);
    match letter {
        "l" => parts::length_line(fields),
        "e" => parts::encode_line(fields),
        "d" => parts::decode_line(fields),
        "t" => parts::lossy_line(fields),
        "u" => parts::form_line(fields),
        "s" => parts::same_line(fields),
        "v" => parts::value_line(fields),
        "z" => parts::size_line(fields),
        "n" => parts::version_line(fields),
        "f" => frames::read_line(fields),
        "k" => frames::kv_line(fields),
        "a" => frames::ack_line(fields),
        "m" => frames::notify_line(fields),
        _ => Err(LineError::Unread),
    }
}
