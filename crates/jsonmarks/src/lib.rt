// The names of an open object: in a large one most new names are told by a table of marks.

#![tactic(auto)]

pub mod table;

ghost use Rattle.std.specs.Prelude.{◌-◌, ◌≤◌, ◌<◌, length};
ghost use Rattle.jsonnames.specs.Sorted.{Named};
ghost use Rattle.jsonmarks.specs.Marks.{DigestTold, Filed, RoomTold, OwnerTold, Signed, TakeDue, Taken, AbsentDue, AbsentTold, KeepDue, Kept, DueTold, NoteDue, Noted, Held, Tended};

use self::table::{digest, is_marked, mark, mark_all, size_of, wipe};
use jsonnames::runs::{put_last, store};
use jsonread::strings::string_at;
use jsontext::{Bad, Fault};

// a number whose double would be no place
const LARGE: usize = 1 << 62;

// how many cells have marks: one for two names, if there are as many
fn size_for(count: usize, cells: usize) -> usize
    requires le_count { 256 ≤ count }
    requires le_cells { 12 ≤ cells }
    ensures { RoomTold cells result }
{
    (cells / 4 - 2).min(count / 2)
}

// whose the table is, for the last cell; 0 where the number is too large
fn owner_of(bytes: usize, first: usize) -> usize
    ensures { OwnerTold bytes first result }
{
    if LARGE <= bytes || LARGE <= first {
        return 0;
    }
    bytes + 1 + first
}

// the last two cells: how many have marks, and whose they are
fn sign(names: &mut [u64], size: usize, owner: usize)
    requires { 2 ≤ length names.old }
    ensures { Signed size owner names.old names.new }
{
    let cells = names.len();
    names[cells - 2] = size as u64;
    names[cells - 1] = owner as u64;
}

// the table becomes the object's, with the marks of all its names
fn take_over(line: &[u8], names: &mut [u64], first: usize, end: usize)
    requires { TakeDue names.old first end }
    ensures { Taken line.now names.old names.new first end }
{
    let cells = names.len();
    let from = cells - cells / 4;
    let size = size_for(end - first, cells);
    let owner = owner_of(line.len(), first);
    wipe(names, from, size);
    mark_all(line, names, first, end, from, size);
    sign(names, size, owner);
}

// is a name of this digest in none of the cells?
fn absent(line: &[u8], names: &[u64], first: usize, end: usize, d: u64) -> bool
    requires { AbsentDue line.now names.now first end d }
    ensures { AbsentTold line.now names.now first end d result }
{
    if end - first < 256 {
        return false;
    }
    let size = size_of(line, names, first);
    if size == 0 {
        return false;
    }
    let cells = names.len();
    !is_marked(names, cells - cells / 4, size, d)
}

// a name whose mark is not set is new; another one is looked for: where it stands already
fn keep(
    line: &[u8],
    names: &mut [u64],
    first: usize,
    end: usize,
    at: usize,
    d: u64,
) -> Option<usize>
    requires keep_due { KeepDue line.now names.old first end at }
    requires digest_told { DigestTold line.now at d }
    ensures { Kept line.now names.old names.new first end at result }
{
    let cells = names.len();
    let from = cells - cells / 4;
    if absent(line, names, first, end, d) {
        let edge = end - (end - first) % 16;
        return put_last(line, &mut names[..from], first, edge, end, at);
    }
    store(line, &mut names[..from], first, end, at)
}

// is the table made anew? At 256 names, and at twice as many
fn is_due(count: usize) -> bool
    requires { 0 < count }
    ensures { DueTold count result }
{
    count == 256 || count.is_power_of_two()
}

// a name that was kept gets its mark
fn note(line: &[u8], names: &mut [u64], first: usize, end: usize, d: u64)
    requires { NoteDue line.now names.old first end d }
    ensures { Noted line.now names.old names.new first end }
{
    if is_due(end + 1 - first) {
        take_over(line, names, first, end + 1);
        return;
    }
    let size = size_of(line, names, first);
    if 0 < size {
        let cells = names.len();
        mark(names, cells - cells / 4, size, d);
    }
}

// a name of a large object is kept, if it is not there: where it stands already
fn hold_many(line: &[u8], names: &mut [u64], first: usize, end: usize, at: usize) -> Option<usize>
    requires keep_due { KeepDue line.now names.old first end at }
    requires bound { 255 ≤ end - first }
    ensures { Held line.now names.old names.new first end at result }
{
    let d = digest(line, at);
    if let Some(p) = keep(line, names, first, end, at, d) {
        return Some(p);
    }
    note(line, names, first, end, d);
    None
}

// names reach into the table: it is no one's
fn hold_crowded(
    line: &[u8],
    names: &mut [u64],
    first: usize,
    end: usize,
    at: usize,
) -> Option<usize>
    requires filed { Filed line.now names.old first end }
    requires end_in_bounds { end < length names.old }
    requires named { Named line.now at }
    ensures { Held line.now names.old names.new first end at result }
{
    if let Some(p) = store(line, names, first, end, at) {
        return Some(p);
    }
    let last = names.len() - 1;
    if end < last {
        names[last] = 0;
    }
    None
}

// a name is kept with the others, if it is not there: where it stands already
fn hold(line: &[u8], names: &mut [u64], first: usize, end: usize, at: usize) -> Option<usize>
    requires filed { Filed line.now names.old first end }
    requires end_in_bounds { end < length names.old }
    requires named { Named line.now at }
    ensures { Held line.now names.old names.new first end at result }
{
    let cells = names.len();
    let from = cells - cells / 4;
    if from <= end {
        return hold_crowded(line, names, first, end, at);
    }
    if end - first < 255 {
        return store(line, &mut names[..from], first, end, at);
    }
    hold_many(line, names, first, end, at)
}

// a member's name that was not read before is kept with the others: where it ends; else what is wrong
pub fn enter(
    line: &[u8],
    names: &mut [u64],
    first: usize,
    end: usize,
    at: usize,
) -> Result<usize, Bad>
    requires filed { Filed line.now names.old first end }
    requires end_in_bounds { end < length names.old }
    requires at_in_bounds { at ≤ length line.now }
    ensures { Tended line.now names.old names.new first end at result }
{
    let after = string_at(line, at)?;
    match hold(line, names, first, end, at) {
        Some(other) => Err(Bad {
            fault: Fault::RepeatedName,
            at,
            first: other,
        }),
        None => Ok(after),
    }
}
