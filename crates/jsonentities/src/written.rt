// The entities of an event, written in order.
ghost use Rattle.std.specs.Prelude.{drop};
ghost use Rattle.jsontext.specs.Values.{array};
ghost use Rattle.jsoncount.specs.Sizes.{entity_read};
ghost use Rattle.jsonentry.specs.Entries.{EntitiesDue, EntitiesWritten};
ghost use Rattle.jsonentities.specs.Sort.{SortedDue, SortedWritten};

use super::entity::put_entity;
use super::sorting::sort_entities;
use jsonroom::{Bodies, Next};

// entities by the places in the first cells, so many
fn put_sorted(
    line: &[u8],
    names: &mut [u64],
    count: usize,
    out: &mut [u8],
    marks: &mut [u8],
    b: Bodies,
    next: &mut Next,
)
    requires { SortedDue line.now names.old count out.old marks.old b next.old }
    ensures { SortedWritten line.now names.old names.new count out.old out.new marks.old marks.new b next.old next.new }
{
    for i in 0..count {
        put_entity(line, names[i] as usize, names, count, out, marks, b, next);
    }
}

// entities, after their bracket: how many
pub fn put_entities(
    line: &[u8],
    at: usize,
    names: &mut [u64],
    out: &mut [u8],
    marks: &mut [u8],
    b: Bodies,
    next: &mut Next,
) -> usize
    requires { EntitiesDue line.now at (array entity_read (drop at line.now)) names.old out.old marks.old b next.old }
    ensures { EntitiesWritten (array entity_read (drop at line.now)) names.old names.new out.old out.new marks.old marks.new b next.old next.new result }
{
    let count = sort_entities(line, at, names);
    put_sorted(line, names, count, out, marks, b, next);
    count
}
