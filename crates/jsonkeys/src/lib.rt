// What arrays and objects share: how one begins, a member's name, and what may follow a part.

#![tactic(auto)]

ghost use Rattle.std.specs.Prelude.{◌+◌, ◌≤◌, length, drop};
ghost use Rattle.jsontext.specs.Reading.{blanks};
ghost use Rattle.jsonmarks.specs.Marks.{Filed};
ghost use Rattle.jsonkeys.specs.Keys.{opened, after, Room, TurnTold, KeyTold};

use jsonmarks::enter;
use jsonread::bytes::{skip_blanks, want_at};
use jsontext::{Bad, Fault};

// a part begins; or there is none, or none more, and this is after the closing bracket
#[derive(Clone, Copy)]
pub enum Turn {
    On(usize),
    Over(usize),
}

// after the opening bracket
pub fn begin_at(line: &[u8], at: usize, close: u8) -> Result<Turn, Bad>
    requires { at ≤ length line.now }
    ensures { TurnTold line.now at (opened close (blanks (drop at line.now))) result }
{
    let k = skip_blanks(line, at);
    if line.len() <= k {
        return Err(Bad::new(Fault::NotJson, k));
    }
    if line[k] == close {
        return Ok(Turn::Over(k + 1));
    }
    Ok(Turn::On(k))
}

// after a part
pub fn turn_at(line: &[u8], at: usize, close: u8) -> Result<Turn, Bad>
    requires { at ≤ length line.now }
    ensures { TurnTold line.now (at + 1) (after close (blanks (drop at line.now))) result }
{
    let k = skip_blanks(line, at);
    if line.len() <= k {
        return Err(Bad::new(Fault::NotJson, k));
    }
    if line[k] == close {
        return Ok(Turn::Over(k + 1));
    }
    if line[k] != b',' {
        return Err(Bad::new(Fault::NotJson, k));
    }
    Ok(Turn::On(skip_blanks(line, k + 1)))
}

// a member's name, kept with those from `first` to `end`, and its colon: where its value begins. `known` says whether the name may stand here
pub fn key_at(
    line: &[u8],
    at: usize,
    known: bool,
    names: &mut [u64],
    first: usize,
    end: usize,
) -> Result<usize, Bad>
    requires at_in_bounds { at ≤ length line.now }
    requires filed { Filed line.now names.old first end }
    requires room { Room line.now names.old end at 0 }
    ensures { KeyTold line.now names.old names.new first end at known result }
{
    if line.len() <= at {
        return Err(Bad::new(Fault::NotJson, at));
    }
    let e = enter(line, names, first, end, at)?;
    if !known {
        return Err(Bad::new(Fault::BadField, at));
    }
    let c = want_at(line, skip_blanks(line, e), b':')?;
    Ok(skip_blanks(line, c))
}
