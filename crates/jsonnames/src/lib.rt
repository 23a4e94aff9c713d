// The names of an open object, as places in the line, sorted in runs.

#![tactic(auto)]

pub mod merges;
pub mod runs;

ghost use Rattle.std.specs.Prelude.{◌<◌, ◌≤◌, length};
ghost use Rattle.jsonnames.specs.Sorted.{Rises, FindTold, Inserted};

use jsonread::names::compare;
use std::cmp::Ordering;

// a name that was read, among those of an object: where it stands, or the cell before which it belongs
pub fn find(line: &[u8], names: &[u64], first: usize, end: usize, at: usize) -> Result<usize, usize>
    requires rises { Rises line.now names.now first end }
    requires at_in_bounds { at ≤ length line.now }
    ensures { FindTold line.now names.now first end at result }
{
    let mut low = first;
    let mut high = end;
    // a while: both ends move, and binary_search_by says nothing by an order of the names themselves
    while low < high {
        let middle = low + (high - low) / 2;
        let other = names[middle] as usize;
        match compare(line, other, at) {
            Ordering::Equal => return Ok(other),
            Ordering::Less => {
                low = middle + 1;
            }
            Ordering::Greater => {
                high = middle;
            }
        }
    }
    Err(low)
}

// room is made at a cell, and the place of a name stored there
pub fn insert(names: &mut [u64], cell: usize, end: usize, at: usize)
    requires cell_le_end { cell ≤ end }
    requires end_in_bounds { end < length names.old }
    ensures { Inserted cell end at names.old names.new }
{
    let mut i = end;
    while cell < i {
        let k = i - 1;
        names[i] = names[k];
        i = k;
    }
    names[cell] = at as u64;
}
