// Entities in order of type and id, equal ones in the text's order.
ghost use Rattle.std.specs.Prelude.{◌<◌, length, drop};
ghost use Rattle.jsontext.specs.Values.{array};
ghost use Rattle.jsonruns.specs.Good.{Good, Ends};
ghost use Rattle.jsoncount.specs.Sizes.{entity_read};
ghost use Rattle.jsonentities.specs.Sort.{PairTold, BeforeTold, InOrder, CellTold, ItemPut, SortDue, Sorted};

use jsoncount::entities::count_entity;
use jsoncount::tallies::Tally;
use jsonnames::insert;
use jsonread::bytes::skip_blanks;
use jsonread::names::compare;
use jsonruns::{after_sign, first_part, part_after, string_end};
use std::cmp::Ordering;

// an entity's type and id, at their quotation marks
#[derive(Clone, Copy)]
pub struct Pair {
    pub kind: usize,
    pub id: usize,
}

// from its bracket on
fn pair_of(line: &[u8], at: usize) -> Pair
    requires { Good line.now at (entity_read (drop at line.now)) }
    ensures { PairTold line.now at result }
{
    let kind = skip_blanks(line, at + 1);
    Pair {
        kind,
        id: after_sign(line, string_end(line, kind)),
    }
}

// is the entity at y before that at x, by type and id?
fn is_before(line: &[u8], y: usize, x: usize) -> bool
    requires good { Good line.now y (entity_read (drop y line.now)) }
    requires good_2 { Good line.now x (entity_read (drop x line.now)) }
    ensures { BeforeTold line.now y x result }
{
    let a = pair_of(line, y);
    let b = pair_of(line, x);
    match compare(line, a.kind, b.kind) {
        Ordering::Less => true,
        Ordering::Greater => false,
        Ordering::Equal => match compare(line, a.id, b.id) {
            Ordering::Less => true,
            Ordering::Equal => false,
            Ordering::Greater => false,
        },
    }
}

// the cell before which an entity belongs, after those equal to it
fn cell_of(line: &[u8], names: &[u64], end: usize, at: usize) -> usize
    requires in_order { InOrder line.now names.now end }
    requires good { Good line.now at (entity_read (drop at line.now)) }
    ensures { CellTold line.now names.now end at result }
{
    let mut low = 0;
    let mut high = end;
    // a while: two bounds draw together
    while low < high {
        let middle = low + (high - low) / 2;
        let other = names[middle] as usize;
        if is_before(line, at, other) {
            high = middle;
        } else {
            low = middle + 1;
        }
    }
    low
}

// an entity put where it belongs
fn keep_entity(line: &[u8], names: &mut [u64], end: usize, at: usize)
    requires in_order { InOrder line.now names.old end }
    requires good { Good line.now at (entity_read (drop at line.now)) }
    requires end_in_bounds { end < length names.old }
    ensures { ItemPut line.now names.old names.new end at }
{
    let cell = cell_of(line, names, end, at);
    insert(names, cell, end, at);
}

// after an entity
fn entity_end(line: &[u8], at: usize) -> usize
    requires { Good line.now at (entity_read (drop at line.now)) }
    ensures { Ends line.now at result (entity_read (drop at line.now)) }
{
    count_entity(line, at, &mut Tally::default())
}

// the entities' places, after the bracket, sorted from the first cell on: how many
pub fn sort_entities(line: &[u8], at: usize, names: &mut [u64]) -> usize
    requires { SortDue line.now at (array entity_read (drop at line.now)) names.old }
    ensures { Sorted line.now (array entity_read (drop at line.now)) names.old names.new result }
{
    let mut count = 0;
    let mut part = first_part(line, at, b']');
    while let Ok(i) = part {
        part = part_after(line, entity_end(line, i), b']');
        keep_entity(line, names, count, i);
        count += 1;
    }
    count
}
