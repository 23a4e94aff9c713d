// Objects that are no forms, and entities, counted.
ghost use Rattle.std.specs.Prelude.{drop};
ghost use Rattle.jsontext.specs.Values.{array, fields};
ghost use Rattle.jsontrace.specs.Count.{counted_entities};
ghost use Rattle.jsonruns.specs.Good.{Good};
ghost use Rattle.jsoncount.specs.Tally.{CountedTo};
ghost use Rattle.jsoncount.specs.Sizes.{fields_size, entity_read, entity_size};

use super::tallies::Tally;
use super::values::count_members;
use jsonread::bytes::skip_blanks;
use jsonruns::{after_sign, first_part, part_after, sign_end};

// an object, from its brace on
pub fn count_fields(line: &[u8], at: usize, tally: &mut Tally) -> usize
    requires { Good line.now at (fields 31 (drop at line.now)) }
    ensures { CountedTo line.now at tally.old tally.new result (fields 31 (drop at line.now)) fields_size }
{
    count_members(line, at + 1, 31, tally)
}

// [type, id, attributes], from its bracket on
pub fn count_entity(line: &[u8], at: usize, tally: &mut Tally) -> usize
    requires { Good line.now at (entity_read (drop at line.now)) }
    ensures { CountedTo line.now at tally.old tally.new result (entity_read (drop at line.now)) entity_size }
{
    let kind_end = tally.add_string(line, skip_blanks(line, at + 1));
    let id_end = tally.add_string(line, after_sign(line, kind_end));
    let end = count_fields(line, after_sign(line, id_end), tally);
    tally.add_lists(3);
    sign_end(line, end)
}

// entities, after the bracket
pub fn count_entities(line: &[u8], at: usize, tally: &mut Tally) -> usize
    requires { Good line.now at (array entity_read (drop at line.now)) }
    ensures { CountedTo line.now at tally.old tally.new result (array entity_read (drop at line.now)) counted_entities }
{
    let mut part = first_part(line, at, b']');
    while let Ok(i) = part {
        let end = count_entity(line, i, tally);
        part = part_after(line, end, b']');
    }
    part.unwrap_err()
}
