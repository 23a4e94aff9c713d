// Values, objects and arrays: where one ends, or the first fault. The names of open objects end at `used`.

#![tactic(auto)]

ghost use Rattle.std.specs.Prelude.{◌≤◌, length, drop};
ghost use Rattle.jsontext.specs.Values.{value, array, fields};
ghost use Rattle.jsonmarks.specs.Marks.{Filed};
ghost use Rattle.jsonkeys.specs.Keys.{Room, Passed};
ghost use Rattle.jsonvalues.specs.Values.{members_of, MemberTold};

use jsonkeys::{Turn, begin_at, key_at, turn_at};
use jsonpairs::only_at;
use jsonparts::scalars::scalar_at;
use jsonread::begins::instead;
use jsonread::forms::form_at;
use jsontext::{Bad, Fault, Form};

// a member: its name, kept with those from `first` to `end`, its colon and its value
#[cycle(array_at_member_at_object_at_value_at)]
fn member_at(
    line: &[u8],
    at: usize,
    levels: u32,
    names: &mut [u64],
    first: usize,
    end: usize,
) -> Result<usize, Bad>
    requires at_in_bounds { at ≤ length line.now }
    requires filed { Filed line.now names.old first end }
    requires room { Room line.now names.old end at 0 }
    ensures { MemberTold line.now names.old names.new first end levels at result }
{
    let v = key_at(line, at, true, names, first, end)?;
    value_at(line, v, levels, names, end + 1)
}

// an object's members, after its brace
#[cycle(array_at_member_at_object_at_value_at)]
fn object_at(
    line: &[u8],
    at: usize,
    levels: u32,
    names: &mut [u64],
    used: usize,
) -> Result<usize, Bad>
    requires at_in_bounds { at ≤ length line.now }
    requires room { Room line.now names.old used at 0 }
    ensures { Passed line.now names.old names.new used at result (members_of levels (drop at line.now)) }
{
    let mut i = match begin_at(line, at, b'}')? {
        Turn::Over(e) => return Ok(e),
        Turn::On(k) => k,
    };
    let mut end = used;
    loop {
        let after = member_at(line, i, levels, names, used, end)?;
        match turn_at(line, after, b'}')? {
            Turn::Over(k) => return Ok(k),
            Turn::On(n) => {
                i = n;
                end += 1;
            }
        }
    }
}

// an array's items, after its bracket
#[cycle(array_at_member_at_object_at_value_at)]
fn array_at(
    line: &[u8],
    at: usize,
    levels: u32,
    names: &mut [u64],
    used: usize,
) -> Result<usize, Bad>
    requires at_in_bounds { at ≤ length line.now }
    requires room { Room line.now names.old used at 0 }
    ensures { Passed line.now names.old names.new used at result (array (λ t. value levels t) (drop at line.now)) }
{
    let mut i = match begin_at(line, at, b']')? {
        Turn::Over(e) => return Ok(e),
        Turn::On(k) => k,
    };
    loop {
        let after = value_at(line, i, levels, names, used)?;
        match turn_at(line, after, b']')? {
            Turn::Over(k) => return Ok(k),
            Turn::On(n) => i = n,
        }
    }
}

// a value, with so many levels left
#[cycle(array_at_member_at_object_at_value_at)]
pub fn value_at(
    line: &[u8],
    at: usize,
    levels: u32,
    names: &mut [u64],
    used: usize,
) -> Result<usize, Bad>
    requires at_in_bounds { at ≤ length line.now }
    requires room { Room line.now names.old used at 1 }
    ensures { Passed line.now names.old names.new used at result (value levels (drop at line.now)) }
{
    if line.len() <= at {
        return Err(Bad::new(Fault::NotJson, at));
    }
    let c = line[at];
    if levels == 0 {
        return Err(Bad::new(instead(c, Fault::TooDeep), at));
    }
    if c == b'[' {
        return array_at(line, at + 1, levels - 1, names, used);
    }
    if c != b'{' {
        return scalar_at(line, at);
    }
    match form_at(line, at + 1) {
        Form::Plain => object_at(line, at + 1, levels - 1, names, used),
        Form::Entity => only_at(line, at + 1, false),
        Form::Extension => only_at(line, at + 1, true),
    }
}

// an object that is no form, and nothing else, at the first level
pub fn fields_at(line: &[u8], at: usize, names: &mut [u64], used: usize) -> Result<usize, Bad>
    requires at_in_bounds { at ≤ length line.now }
    requires room { Room line.now names.old used at 1 }
    ensures { Passed line.now names.old names.new used at result (fields 31 (drop at line.now)) }
{
    if line.len() <= at {
        return Err(Bad::new(Fault::NotJson, at));
    }
    let c = line[at];
    if c != b'{' {
        return Err(Bad::new(instead(c, Fault::BadField), at));
    }
    match form_at(line, at + 1) {
        Form::Plain => object_at(line, at + 1, 31, names, used),
        _ => Err(Bad::new(Fault::BadField, at)),
    }
}
