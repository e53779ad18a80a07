// Lists the frames of its standard input (docs/RULES.md, "The listing"): a line for each frame, message and pair, and a last one that says
// how far it came and why it stopped there. With the word `agent` the frames are those that an agent sends, with a line for each action.
//
// What a line has, and which comes next, is the library's to say and proved there. Here frames are read, and their lines written out.

#![tactic(auto)]

ghost use Rattle.std.specs.Prelude.{◌≡◌, ◌+◌, ◌≤◌, IfOk, length};
ghost use Rattle.spoplist.specs.Inner.{end_number, end_place, ReadsIn, side_in, Takes, Ends, limit, StandMessages, StandPairs, StandActions, Lies};

use answer::{Read, Refusal, WAIT};
use frame::{ACTION_WIDTH, MESSAGE_WIDTH, PAIR_WIDTH, Side, Stop};
use listing::Place;
use parser::Frame;
use payload::Counts;
use std::env::{Env, FillError};
use std::io;
use std::io::Read as _;

// How many bytes are read at most.
const INPUT: usize = 65_536;

// The longest frame that is read, its length bytes aside.
const LIMIT: u32 = 65_532;

// Numbers of the three tables: 64 messages, 256 pairs, and 256 actions.
const MESSAGES: usize = 64 * MESSAGE_WIDTH;

const PAIRS: usize = 256 * PAIR_WIDTH;

const ACTIONS: usize = 256 * ACTION_WIDTH;

// Bytes for a line. The longest has two digits for each of a frame's bytes, and 128 others at most.
const LINE: usize = 131_200;

// Three tables for a frame's records, which serve for all frames.
#[derive(Drop)]
struct Tables {
    messages: [u64; MESSAGES],
    pairs: [u64; PAIRS],
    actions: [u64; ACTIONS],
}

// How a listing ends: behind so many bytes of accepted frames, and why there is no frame behind them, or nothing where no byte is left.
#[derive(Clone, Copy)]
struct Ended {
    used: usize,
    stop: Option<Stop>,
}

fn main(rt: HostRuntime) -> io::Result<()> {
    let Some(side) = side_of(&rt) else {
        return rt.eprintln("usage: spoplist [agent] < FRAMES");
    };
    let mut input = [0; INPUT];
    let n = read_full(&mut rt.stdin(), &mut input)?;
    // A listing that nobody reads any more ends quietly.
    let _ = list(&rt, side, &input[..n]);
    Ok(())
}

// Whose frames are listed: HAProxy's where there is no word, and an agent's where there is `agent` alone. Word 0 is the program's own name.
fn side_of(rt: &impl Env) -> Option<Side> {
    let mut word = [0; 8];
    match rt.arg(1, &mut word) {
        Err(FillError::NotPresent) => Some(Side::HAProxy),
        Ok(n) if &word[..n] == b"agent".as_slice() && !is_given(rt, 2) => Some(Side::Agents),
        _ => None,
    }
}

// Whether there is such a word. It is lent no bytes, so one that is there is empty or does not fit.
fn is_given(rt: &impl Env, word: usize) -> bool {
    !matches!(rt.arg(word, &mut []), Err(FillError::NotPresent))
}

// Reads until the buffer is full or the input ends; how many bytes the buffer has then. Each read is lent all that is left of the buffer, since
// input that comes in packets loses what a read has no room for.
fn read_full(input: &mut impl io::Read, buffer: &mut [u8]) -> io::Result<usize>
    ensures { IfOk result (λ n. n ≤ length buffer.new) }
{
    let mut n = 0;
    while n < buffer.len() {
        let more = input.read(&mut buffer[n..])?;
        if more == 0 {
            return Ok(n);
        }
        n += more;
    }
    Ok(n)
}

// Lists the frames of the input, and writes the last line.
fn list(rt: &impl Print, side: Side, input: &[u8]) -> io::Result<()> {
    let mut tables = Tables {
        messages: [0; MESSAGES],
        pairs: [0; PAIRS],
        actions: [0; ACTIONS],
    };
    let mut line = [0; LINE];
    let ended = list_all(rt, side, input, &mut tables, &mut line)?;
    end(rt, ended, &mut line)
}

// Lists them one behind the other.
fn list_all(
    rt: &impl Print,
    side: Side,
    input: &[u8],
    tables: &mut Tables,
    out: &mut [u8; LINE],
) -> io::Result<Ended>
    ensures { IfOk result (Ends input.now (side_in side)) }
{
    // The place goes on by what a frame takes, which its reading tells: there is no range to go over, and the index is that of the frames.
    let mut at = 0;
    let mut index = 0;
    while at < input.len() {
        match list_one(rt, side, index, &input[at..], tables, out)? {
            Ok(used) => {
                at += used;
                index += 1;
            },
            Err(stop) => {
                return Ok(Ended {
                    used: at,
                    stop: Some(stop),
                });
            },
        }
    }
    Ok(Ended {
        used: at,
        stop: None,
    })
}

// Reads the frame at the front of the bytes that are left, as one that either side sends, and lists it. One of HAProxy's has no actions, and one of an
// agent's no messages.
fn list_one(
    rt: &impl Print,
    side: Side,
    index: u64,
    rest: &[u8],
    tables: &mut Tables,
    out: &mut [u8; LINE],
) -> io::Result<Result<usize, Stop>>
    ensures { IfOk result (Takes rest.now (side_in side rest.now)) }
{
    match tables.read(side, rest) {
        Ok(read) => {
            let Frame { head, counts } = read.value;
            let used = read.used;
            print(
                rt,
                listing::write_frame_line(index, head, used as u64, out),
                out,
            )?;
            let frame = &rest[..used];
            list_records(rt, frame, &tables.messages, &tables.pairs, counts, out)?;
            list_actions(rt, frame, &tables.actions, counts.actions, out)?;
            Ok(Ok(used))
        },
        Err(stop) => Ok(Err(stop)),
    }
}

impl Tables {
    // Reads it, with the two tables that the frames of its side have records for.
    fn read(&mut self, side: Side, rest: &[u8]) -> Result<Read<Frame>, Stop>
        ensures { ReadsIn side rest.now result self.old self.new }
    {
        match side {
            Side::HAProxy => parser::read_frame(rest, LIMIT, &mut self.messages, &mut self.pairs),
            Side::Agents => parser::read_agent_frame(
                rest,
                LIMIT,
                &mut self.pairs,
                &mut self.actions,
            ),
        }
    }
}

// Lists the actions of a frame that was accepted, line by line.
fn list_actions(
    rt: &impl Print,
    frame: &[u8],
    actions: &[u64],
    count: usize,
    out: &mut [u8; LINE],
) -> io::Result<()>
    requires stand_actions { StandActions frame.now actions.now count }
    requires frame_in_bounds { length frame.now ≤ 4 + limit }
{
    for k in 0..count {
        print(rt, listing::write_action_at(frame, actions, k, out), out)?;
    }
    Ok(())
}

// Lists the messages and pairs of a frame that was accepted, line by line. A line says where the next one stands. The tables are longer than what the
// frame has of each, so the counts go with them.
fn list_records(
    rt: &impl Print,
    frame: &[u8],
    messages: &[u64],
    pairs: &[u64],
    counts: Counts,
    out: &mut [u8; LINE],
) -> io::Result<()>
    requires stand_messages { StandMessages frame.now messages.now counts.messages }
    requires stand_pairs { StandPairs frame.now pairs.now counts.pairs }
    requires frame_in_bounds { length frame.now ≤ 4 + limit }
{
    let mut place = Place::default();
    loop {
        match listing::write_next_line(
            frame,
            messages,
            counts.messages,
            pairs,
            counts.pairs,
            place,
            out,
        ) {
            Ok(Some(line)) => {
                rt.write_all(&out[..line.len])?;
                place = line.place;
            },
            Ok(None) => {
                return Ok(());
            },
            // Never: of an accepted frame no line is refused where there is room, as the proof shows.
            Err(_) => {
                prove!(false);
                return Ok(());
            },
        }
    }
}

// The answer that stopped a listing, 0 where no byte is left, and what goes with it.
fn end_numbers(stop: Option<Stop>) -> (u64, usize)
    ensures number { result.0 ≡ end_number stop }
    ensures place { result.1 ≡ end_place stop }
{
    match stop {
        None => (0, 0),
        Some(Stop::Wait(missing)) => (WAIT, missing),
        Some(Stop::Refused(r)) => (r.reason.into(), r.place),
    }
}

// Writes the last line: how many bytes accepted frames took, and why there is no frame behind them.
fn end(rt: &impl Print, ended: Ended, out: &mut [u8; LINE]) -> io::Result<()> {
    let (number, at) = end_numbers(ended.stop);
    print(
        rt,
        listing::write_end_line(ended.used as u64, number, at as u64, out),
        out,
    )
}

// Writes out a line that was not refused.
fn print(rt: &impl Print, answer: Result<usize, Refusal>, out: &[u8]) -> io::Result<()>
    requires { Lies answer out.now }
{
    rt.write_all(&out[..answer::wrote(answer)])
}
