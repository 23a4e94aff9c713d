// Cedar's forms: an object of one member, whose value has two.

#![tactic(auto)]

ghost use Rattle.std.specs.Prelude.{◌<◌, ◌≤◌, eqb, length, drop};
ghost use Rattle.jsontext.specs.Values.{due};
ghost use Rattle.jsonread.specs.Told.{Told};
ghost use Rattle.jsonpairs.specs.Pairs.{WhichTold, item_of, member_after, TurnTold, NextTold, two_of, inside_of, only_of};

use jsonread::begins::{instead, text_at};
use jsonread::bytes::{skip_blanks, want_at};
use jsonread::names::is_word;
use jsonread::strings::string_at;
use jsontext::{Bad, Fault};

// which of a form's two names
#[derive(Clone, Copy)]
pub enum Which {
    First,
    Second,
    Neither,
}

// the places of the two names so far (0: not yet; no Option, as the definition too counts by places, and 0 is none: a brace stands there), and where the next member begins
#[derive(Clone, Copy)]
pub struct Two {
    pub first: usize,
    pub second: usize,
    pub at: usize,
}

// another member begins, or the object ends here
#[derive(Clone, Copy)]
pub enum Turn {
    On(Two),
    Done(usize),
}

fn which_of(line: &[u8], at: usize, extension: bool) -> Which
    requires { at ≤ length line.now }
    ensures { WhichTold line.now at extension result }
{
    if extension {
        if is_word(line, at, b"fn") {
            return Which::First;
        }
        if is_word(line, at, b"arg") {
            return Which::Second;
        }
        return Which::Neither;
    }
    if is_word(line, at, b"type") {
        return Which::First;
    }
    if is_word(line, at, b"id") {
        return Which::Second;
    }
    Which::Neither
}

// a member's value: a string; that of fn says decimal
fn item_at(line: &[u8], at: usize, decimal: bool) -> Result<usize, Bad>
    requires { at ≤ length line.now }
    ensures { Told line.now at result (item_of decimal (drop at line.now)) }
{
    let e = text_at(line, at)?;
    if !decimal {
        return Ok(e);
    }
    if !is_word(line, at, b"decimal") {
        return Err(Bad::new(Fault::BadField, at));
    }
    Ok(e)
}

// a name was read up to `after`: its colon and value, if it stands there for the first time
fn member_at(
    line: &[u8],
    name: usize,
    after: usize,
    before: usize,
    decimal: bool,
) -> Result<usize, Bad>
    requires name_in_bounds { name ≤ length line.now }
    requires after_in_bounds { after ≤ length line.now }
    requires before_in_bounds { before ≤ length line.now }
    ensures { Told line.now after result (member_after line.now name before decimal (drop after line.now)) }
{
    if 0 < before {
        return Err(Bad {
            fault: Fault::RepeatedName,
            at: name,
            first: before,
        });
    }
    let c = want_at(line, skip_blanks(line, after), b':')?;
    item_at(line, skip_blanks(line, c), decimal)
}

// after a member: another, or the brace, where none of the two may be missing
fn turn_at(line: &[u8], first: usize, second: usize, end: usize) -> Result<Turn, Bad>
    requires { end ≤ length line.now }
    ensures { TurnTold line.now first second end result }
{
    let at = skip_blanks(line, end);
    if line.len() <= at {
        return Err(Bad::new(Fault::NotJson, at));
    }
    if line[at] == b',' {
        return Ok(Turn::On(Two {
            first,
            second,
            at: skip_blanks(line, at + 1),
        }));
    }
    if line[at] != b'}' {
        return Err(Bad::new(Fault::NotJson, at));
    }
    if first == 0 {
        return Err(Bad::new(Fault::BadField, at));
    }
    if second == 0 {
        return Err(Bad::new(Fault::BadField, at));
    }
    Ok(Turn::Done(at + 1))
}

// a member and what follows it
fn next_at(line: &[u8], t: Two, extension: bool) -> Result<Turn, Bad>
    requires at_nonzero { 0 < t.at }
    requires at_in_bounds { t.at ≤ length line.now }
    requires first_in_bounds { t.first ≤ length line.now }
    requires second_in_bounds { t.second ≤ length line.now }
    ensures { NextTold line.now t extension result }
{
    let at = t.at;
    let after = string_at(line, at)?;
    match which_of(line, at, extension) {
        Which::Neither => Err(Bad::new(Fault::BadField, at)),
        Which::First => {
            let e = member_at(line, at, after, t.first, extension)?;
            turn_at(line, at, t.second, e)
        }
        Which::Second => {
            let e = member_at(line, at, after, t.second, false)?;
            turn_at(line, t.first, at, e)
        }
    }
}

// exactly the two members, after the brace
fn two_at(line: &[u8], at: usize, extension: bool) -> Result<usize, Bad>
    requires at_nonzero { 0 < at }
    requires at_in_bounds { at ≤ length line.now }
    ensures { Told line.now at result (two_of extension (drop at line.now)) }
{
    let begin = skip_blanks(line, at);
    if line.len() <= begin {
        return Err(Bad::new(Fault::NotJson, begin));
    }
    if line[begin] == b'}' {
        return Err(Bad::new(Fault::BadField, begin));
    }
    let mut t = Two {
        first: 0,
        second: 0,
        at: begin,
    };
    loop {
        match next_at(line, t, extension)? {
            Turn::Done(e) => return Ok(e),
            Turn::On(n) => t = n,
        }
    }
}

// an object of the two members, and nothing else
fn inside_at(line: &[u8], at: usize, extension: bool) -> Result<usize, Bad>
    requires { at ≤ length line.now }
    ensures { Told line.now at result (due Fault.BadField (λ c. eqb c 123) (inside_of extension) (drop at line.now)) }
{
    if line.len() <= at {
        return Err(Bad::new(Fault::NotJson, at));
    }
    let c = line[at];
    if c != b'{' {
        return Err(Bad::new(instead(c, Fault::BadField), at));
    }
    two_at(line, at + 1, extension)
}

// the only member of a form, after its brace
pub fn only_at(line: &[u8], at: usize, extension: bool) -> Result<usize, Bad>
    requires { at ≤ length line.now }
    ensures { Told line.now at result (only_of extension (drop at line.now)) }
{
    let after = string_at(line, skip_blanks(line, at))?;
    let c = want_at(line, skip_blanks(line, after), b':')?;
    let e = inside_at(line, skip_blanks(line, c), extension)?;
    want_at(line, skip_blanks(line, e), b'}')
}
