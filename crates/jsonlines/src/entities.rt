// A point's entities: an array of [type, id, attributes].
ghost use Rattle.std.specs.Prelude.{◌≤◌, length, drop};
ghost use Rattle.jsontext.specs.Reading.{blanks};
ghost use Rattle.jsontext.specs.Values.{array};
ghost use Rattle.jsontext.specs.Events.{triple, unless_none, listed};
ghost use Rattle.jsonread.specs.Told.{Told};
ghost use Rattle.jsonkeys.specs.Keys.{Room, Passed};
ghost use Rattle.jsonlines.specs.Entities.{name_of, attributes_of, entity_of};

use jsonkeys::{Turn, begin_at, turn_at};
use jsonread::begins::{closing_at, comma_at, instead, text_at};
use jsonread::bytes::skip_blanks;
use jsontext::{Bad, Fault};
use jsonvalues::fields_at;

// a string of an entity, its comma, and blanks
fn named_at(line: &[u8], at: usize) -> Result<usize, Bad>
    requires { at ≤ length line.now }
    ensures { Told line.now at result (name_of (drop at line.now)) }
{
    let e = text_at(line, at)?;
    let c = comma_at(line, skip_blanks(line, e))?;
    Ok(skip_blanks(line, c))
}

// attributes and the closing bracket of an entity
fn attributes_at(line: &[u8], at: usize, names: &mut [u64], used: usize) -> Result<usize, Bad>
    requires at_in_bounds { at ≤ length line.now }
    requires room { Room line.now names.old used at 1 }
    ensures { Passed line.now names.old names.new used at result (attributes_of (drop at line.now)) }
{
    let e = fields_at(line, at, names, used)?;
    closing_at(line, skip_blanks(line, e))
}

// type, id, attributes
fn triple_at(line: &[u8], at: usize, names: &mut [u64], used: usize) -> Result<usize, Bad>
    requires at_in_bounds { at ≤ length line.now }
    requires room { Room line.now names.old used at 1 }
    ensures { Passed line.now names.old names.new used at result (triple (drop at line.now)) }
{
    let id = named_at(line, at)?;
    let attributes = named_at(line, id)?;
    attributes_at(line, attributes, names, used)
}

// an entity after its bracket: none of the three may be missing
fn unless_none(line: &[u8], at: usize, names: &mut [u64], used: usize) -> Result<usize, Bad>
    requires at_in_bounds { at ≤ length line.now }
    requires room { Room line.now names.old used at 0 }
    ensures { Passed line.now names.old names.new used at result (unless_none (blanks (drop at line.now))) }
{
    let i = skip_blanks(line, at);
    if line.len() <= i {
        return Err(Bad::new(Fault::NotJson, i));
    }
    if line[i] == b']' {
        return Err(Bad::new(Fault::BadField, i));
    }
    triple_at(line, i, names, used)
}

// an entity, and nothing else
fn entity_at(line: &[u8], at: usize, names: &mut [u64], used: usize) -> Result<usize, Bad>
    requires at_in_bounds { at ≤ length line.now }
    requires room { Room line.now names.old used at 1 }
    ensures { Passed line.now names.old names.new used at result (entity_of (drop at line.now)) }
{
    if line.len() <= at {
        return Err(Bad::new(Fault::NotJson, at));
    }
    let c = line[at];
    if c != b'[' {
        return Err(Bad::new(instead(c, Fault::BadField), at));
    }
    unless_none(line, at + 1, names, used)
}

// entities, after the bracket
fn entities_at(line: &[u8], at: usize, names: &mut [u64], used: usize) -> Result<usize, Bad>
    requires at_in_bounds { at ≤ length line.now }
    requires room { Room line.now names.old used at 0 }
    ensures { Passed line.now names.old names.new used at result (array entity_of (drop at line.now)) }
{
    let mut i = match begin_at(line, at, b']')? {
        Turn::Over(e) => return Ok(e),
        Turn::On(k) => k,
    };
    loop {
        let after = entity_at(line, i, names, used)?;
        match turn_at(line, after, b']')? {
            Turn::Over(k) => return Ok(k),
            Turn::On(n) => i = n,
        }
    }
}

// a list of entities, and nothing else
pub fn list_at(line: &[u8], at: usize, names: &mut [u64], used: usize) -> Result<usize, Bad>
    requires at_in_bounds { at ≤ length line.now }
    requires room { Room line.now names.old used at 1 }
    ensures { Passed line.now names.old names.new used at result (listed (array entity_of) (drop at line.now)) }
{
    if line.len() <= at {
        return Err(Bad::new(Fault::NotJson, at));
    }
    let c = line[at];
    if c != b'[' {
        return Err(Bad::new(instead(c, Fault::BadField), at));
    }
    entities_at(line, at + 1, names, used)
}
