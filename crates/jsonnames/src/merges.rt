// Two runs of names that follow one another become one.
ghost use Rattle.std.specs.Prelude.{◌≡◌, ◌+◌, ◌-◌, ◌<◌, ◌≤◌, length};
ghost use Rattle.jsonnames.specs.Merges.{Pair, Aside, CopyTold, LaterDue, LaterTold, OrderedTold, Merged};

use super::{find, insert};
use jsonread::names::compare;
use std::cmp::Ordering;

// the upper run copied behind itself
fn set_aside(names: &mut [u64], mid: usize, high: usize)
    requires mid_le_high { mid ≤ high }
    requires mid_in_bounds { high + (high - mid) ≤ length names.old }
    ensures { CopyTold mid high names.old names.new }
{
    for i in mid..high {
        names[high + (i - mid)] = names[i];
    }
}

// whether the second of two names comes last
pub fn comes_last(line: &[u8], p: usize, at: usize) -> bool
    requires { LaterDue line.now p at }
    ensures { LaterTold line.now p at result }
{
    match compare(line, p, at) {
        Ordering::Greater => false,
        Ordering::Equal => false,
        Ordering::Less => true,
    }
}

// the upper run set aside, the greater of both is put again and again, from the end on
fn join(line: &[u8], names: &mut [u64], low: usize, mid: usize, high: usize)
    requires { Aside line.now names.old low mid high }
    ensures { Merged line.now names.old names.new low high }
{
    let mut i = mid;
    let mut j = high;
    // a while: the ends of both runs move down apart
    while mid < j {
        let last = j - 1;
        let at = names[high + (last - mid)];
        if i <= low {
            names[i + (last - mid)] = at;
            j = last;
        } else {
            let k = i - 1;
            let other = names[k];
            if comes_last(line, other as usize, at as usize) {
                names[i + (last - mid)] = at;
                j = last;
            } else {
                names[k + (j - mid)] = other;
                i = k;
            }
        }
    }
}

// each name of the upper run put into the lower one
fn join_in_place(line: &[u8], names: &mut [u64], low: usize, mid: usize, high: usize)
    requires { Pair line.now names.old low mid high }
    ensures { Merged line.now names.old names.new low high }
{
    for j in mid..high {
        let at = names[j] as usize;
        let Err(cell) = find(line, names, low, j, at) else {
            return;
        };
        insert(names, cell, j, at);
    }
}

// whether the lower run's last name comes before the upper run's first
fn in_order(line: &[u8], names: &[u64], low: usize, mid: usize, high: usize) -> bool
    requires { Pair line.now names.now low mid high }
    ensures { OrderedTold line.now names.now low high result }
{
    if mid <= low {
        return true;
    }
    if high <= mid {
        return true;
    }
    comes_last(line, names[mid - 1] as usize, names[mid] as usize)
}

// two runs become one, by the cells behind them where there are enough
pub fn merge(line: &[u8], names: &mut [u64], low: usize, mid: usize, high: usize)
    requires { Pair line.now names.old low mid high }
    ensures { Merged line.now names.old names.new low high }
{
    if in_order(line, names, low, mid, high) {
        return;
    }
    if names.len() - high < high - mid {
        join_in_place(line, names, low, mid, high);
    } else {
        set_aside(names, mid, high);
        join(line, names, low, mid, high);
    }
}
