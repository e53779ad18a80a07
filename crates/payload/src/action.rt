// An action, read from the front of some bytes, or at a place of them.
ghost use Rattle.std.specs.Prelude.{◌≡◌, not, ◌||◌, ◌≤◌, eqb, length};
ghost use Rattle.answer.specs.Writes.{read_said};
ghost use Rattle.payload.specs.Action.{argument_count, action as action_of, action_from};
ghost use Rattle.payload.specs.Inner.{action_behind, Headed};

use crate::pair::{behind, moved_pair, read_pair};
use answer::{Read, Reason, Refusal};
use frame::{Action, Pair, SET_VAR, UNSET_VAR};
use types::Value;

// The last of the scopes, which are numbered from 0.
const RESPONSE: u64 = 4;

fn unknown(verb: u64) -> bool
    ensures { result ≡ not (eqb verb 1 || eqb verb 2) }
{
    verb != SET_VAR && verb != UNSET_VAR
}

// How many arguments it has.
fn arguments(verb: u64) -> u64
    ensures { result ≡ argument_count verb }
{
    if verb == SET_VAR { 3 } else { 2 }
}

// Reads the name and the value of a set.
fn read_set(input: &[u8], scope: u64) -> Result<Read<Action>, Refusal>
    requires { Headed input.now 1 scope }
    ensures { action_behind result ≡ action_of input.now }
{
    let Read { value: pair, used } = behind(read_pair(&input[3..]), 3)?;
    Ok(Read {
        value: Action {
            verb: SET_VAR,
            scope,
            pair,
        },
        used,
    })
}

// Reads the name of an unset.
fn read_unset(input: &[u8], scope: u64) -> Result<Read<Action>, Refusal>
    requires { Headed input.now 2 scope }
    ensures { action_behind result ≡ action_of input.now }
{
    let Read { value: name, used } = behind(types::read_string(&input[3..]), 3)?;
    Ok(Read {
        value: Action {
            verb: UNSET_VAR,
            scope,
            pair: Pair {
                start: name.start as u64,
                len: name.len as u64,
                value: Value::default(),
            },
        },
        used,
    })
}

// Reads the action at the front of `input`: each of its three bytes is tested as it is read.
fn read_action(input: &[u8]) -> Result<Read<Action>, Refusal>
    ensures { action_behind result ≡ action_of input.now }
{
    let have = input.len();
    if have < 1 {
        return Err(Reason::TooSoon.at(0));
    }
    let verb = input[0] as u64;
    if unknown(verb) {
        return Err(Reason::UnknownAction.at(1));
    }
    if have < 2 {
        return Err(Reason::TooSoon.at(1));
    }
    if input[1] as u64 != arguments(verb) {
        return Err(Reason::UnknownAction.at(2));
    }
    if have < 3 {
        return Err(Reason::TooSoon.at(2));
    }
    let scope = input[2] as u64;
    if RESPONSE < scope {
        return Err(Reason::UnknownAction.at(3));
    }
    if verb == SET_VAR {
        return read_set(input, scope);
    }
    read_unset(input, scope)
}

// Reads the action that stands at `at`. Starts count from the input's first byte.
pub(crate) fn action_at(input: &[u8], at: usize) -> Result<Read<Action>, Refusal>
    requires { at ≤ length input.now }
    ensures { read_said result ≡ action_from at input.now }
{
    let Read {
        value: action,
        used,
    } = behind(read_action(&input[at..]), at)?;
    Ok(Read {
        value: Action {
            verb: action.verb,
            scope: action.scope,
            pair: moved_pair(action.pair, (at + 3) as u64),
        },
        used,
    })
}
