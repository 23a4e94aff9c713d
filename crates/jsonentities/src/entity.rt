// One entity, with its attributes.
ghost use Rattle.std.specs.Prelude.{drop};
ghost use Rattle.jsontext.specs.Values.{fields};
ghost use Rattle.jsoncount.specs.Sizes.{entity_read};
ghost use Rattle.jsonentities.specs.Put.{HeldDue, HeldWritten, attributes_tables, entity_tables, named_fields, named_item};

use super::keys::put_keys;
use jsonplace::write_object;
use jsonroom::{Bodies, Next, put_list};

// attributes, from their brace on, and the word that names them
fn put_attributes(
    line: &[u8],
    at: usize,
    names: &mut [u64],
    used: usize,
    out: &mut [u8],
    marks: &mut [u8],
    b: Bodies,
    next: &mut Next,
)
    requires { HeldDue line.now at (fields 31 (drop at line.now)) out.old marks.old b next.old attributes_tables names.old used named_fields }
    ensures { HeldWritten (fields 31 (drop at line.now)) out.old out.new marks.old marks.new b next.old attributes_tables next.new used names.old names.new }
{
    write_object(line, at + 1, 31, names, used, out, b, next);
    let value = next.value - 1;
    put_list(out, marks, b, next, value, 0);
}

// type, id and attributes, and the three words that name them
pub fn put_entity(
    line: &[u8],
    at: usize,
    names: &mut [u64],
    used: usize,
    out: &mut [u8],
    marks: &mut [u8],
    b: Bodies,
    next: &mut Next,
)
    requires { HeldDue line.now at (entity_read (drop at line.now)) out.old marks.old b next.old entity_tables names.old used named_item }
    ensures { HeldWritten (entity_read (drop at line.now)) out.old out.new marks.old marks.new b next.old entity_tables next.new used names.old names.new }
{
    let attributes = put_keys(line, at, out, marks, b, next);
    put_attributes(line, attributes, names, used, out, marks, b, next);
}
