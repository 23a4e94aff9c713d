// The names of an open object in runs: past the last whole sixteen one run, before it runs of sixteen, thirty-two and so on, the longest first.
ghost use Rattle.std.specs.Prelude.{◌≡◌, ◌+◌, ◌-◌, ◌/◌, ◌<◌, ◌≤◌, length};
ghost use Rattle.jsonnames.specs.Sorted.{Named, Sorted};
ghost use Rattle.jsonnames.specs.Merges.{Merged};
ghost use Rattle.jsonnames.specs.Runs.{LastDue, LastTold, Looked, LookTold, PutDue, CarryDue, Carried, Stored};

use super::merges::{comes_last, merge};
use super::{find, insert};

// of so many blocks below `high`, the last one where their number is odd: the name in it, or where the others end
fn look_last(
    line: &[u8],
    names: &[u64],
    size: usize,
    count: usize,
    high: usize,
    at: usize,
) -> Result<usize, usize>
    requires { LastDue line.now names.now size count high at }
    ensures { LastTold line.now names.now size count high at result }
{
    if count % 2 == 0 {
        return Err(high);
    }
    if comes_last(line, names[high - 1] as usize, at) {
        return Err(high - size);
    }
    match find(line, names, high - size, high, at) {
        Ok(p) => Ok(p),
        Err(_) => Err(high - size),
    }
}

// a name looked for in each run below `stop`: where it stands
fn look(line: &[u8], names: &[u64], first: usize, stop: usize, at: usize) -> Option<usize>
    requires { Looked line.now names.now first stop at }
    ensures { LookTold line.now names.now first stop at result }
{
    let mut size = 16;
    let mut count = (stop - first) / 16;
    let mut high = stop;
    while 0 < count {
        match look_last(line, names, size, count, high, at) {
            Ok(p) => return Some(p),
            Err(others) => {
                high = others;
                size += size;
                count /= 2;
            }
        }
    }
    None
}

// the last run, of sixteen, is merged with the run before it while that is as long
fn carry(line: &[u8], names: &mut [u64], first: usize, end: usize)
    requires { CarryDue line.now names.old first end }
    ensures { Carried line.now names.old names.new first end }
{
    let mut low = end - 16;
    let mut count = (low - first) / 16;
    while count % 2 == 1 {
        let from = low - (end - low);
        merge(line, names, from, low, end);
        low = from;
        count /= 2;
    }
}

// a name that is in no run before the last one: where it stands already, or it is kept
pub fn put_last(
    line: &[u8],
    names: &mut [u64],
    first: usize,
    edge: usize,
    end: usize,
    at: usize,
) -> Option<usize>
    requires { PutDue line.now names.old first edge end at }
    ensures { Stored line.now names.old names.new first end at result }
{
    match find(line, names, edge, end, at) {
        Ok(p) => Some(p),
        Err(cell) => {
            insert(names, cell, end, at);
            if end - edge == 15 {
                carry(line, names, first, end + 1);
            }
            None
        }
    }
}

// a name is kept with the others, if it is not there: where it stands already
pub fn store(line: &[u8], names: &mut [u64], first: usize, end: usize, at: usize) -> Option<usize>
    requires sorted { Sorted line.now names.old first end }
    requires end_in_bounds { end < length names.old }
    requires named { Named line.now at }
    ensures { Stored line.now names.old names.new first end at result }
{
    let edge = end - (end - first) % 16;
    match look(line, names, first, edge, at) {
        Some(p) => Some(p),
        None => put_last(line, names, first, edge, end, at),
    }
}

// all runs become one
pub fn gather(line: &[u8], names: &mut [u64], first: usize, end: usize)
    requires { Sorted line.now names.old first end }
    ensures { Merged line.now names.old names.new first end }
{
    let mut low = end - (end - first) % 16;
    let mut size = 16;
    let mut count = (end - first) / 16;
    while 0 < count {
        if count % 2 == 1 {
            merge(line, names, low - size, low, end);
            low -= size;
            size += size;
            count /= 2;
        } else {
            size += size;
            count /= 2;
        }
    }
}
