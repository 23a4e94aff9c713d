// The fields of a point: which one a name is, and its value.
ghost use Rattle.std.specs.Prelude.{◌≤◌, length, drop};
ghost use Rattle.jsonkeys.specs.Keys.{Room, Passed};
ghost use Rattle.jsonlines.specs.Fields.{IfTold, FieldTold, reader_at};

use super::entities::list_at;
use jsonparts::texts::namespace_at;
use jsonread::begins::{text_at, time_at};
use jsonread::names::{Cursor, is_word, next_byte};
use jsontext::Bad;
use jsonvalues::{fields_at, value_at};

// field k, if the name is this word; else 9
fn if_word(line: &[u8], at: usize, word: &[u8], k: usize) -> usize
    requires { at ≤ length line.now }
    ensures { IfTold line.now at word.now k result }
{
    if is_word(line, at, word) { k } else { 9 }
}

// which field a name is, by its place in a point's record; 9 for none (a number, as the definition's readers and the bits of an event go by it). Their first bytes differ
pub fn field_of(line: &[u8], at: usize) -> usize
    requires { at ≤ length line.now }
    ensures { FieldTold line.now at result }
{
    let Some((b, _)) = next_byte(line, Cursor::at(at + 1)) else {
        return 9;
    };
    match b {
        b't' => if_word(line, at, b"time", 0),
        b'n' => if_word(line, at, b"namespace", 1),
        b'a' => if_word(line, at, b"action", 2),
        b'k' => if_word(line, at, b"kind", 3),
        b'l' => if_word(line, at, b"logged", 4),
        b'c' => if_word(line, at, b"context", 5),
        b'p' => if_word(line, at, b"principal", 6),
        b'r' => if_word(line, at, b"resource", 7),
        b'e' => if_word(line, at, b"entities", 8),
        _ => 9,
    }
}

// a field's value
pub fn field_at(
    line: &[u8],
    at: usize,
    field: usize,
    names: &mut [u64],
    used: usize,
) -> Result<usize, Bad>
    requires at_in_bounds { at ≤ length line.now }
    requires room { Room line.now names.old used at 1 }
    ensures { Passed line.now names.old names.new used at result (reader_at field (drop at line.now)) }
{
    match field {
        0 => time_at(line, at),
        1 => namespace_at(line, at),
        2 => text_at(line, at),
        3 => text_at(line, at),
        4 => fields_at(line, at, names, used),
        5 => fields_at(line, at, names, used),
        6 => value_at(line, at, 32, names, used),
        7 => value_at(line, at, 32, names, used),
        _ => list_at(line, at, names, used),
    }
}
