// Runs of the lists, for the rules of points and nodes: they may overlap, so they are read by blocks of 1024 words.

#![tactic(auto)]

ghost use Rattle.std.specs.Prelude.{◌≡◌, Bool, true, ◌+◌, ◌<◌, ltb};
ghost use Rattle.meaning.specs.Tests.{◌and◌, all_below, greatest};
ghost use Rattle.meaning.specs.Case.{lists, list};
ghost use Rattle.meaning.specs.Check.{bodies, mosts, in_table, path_name, path_run, string_run, variable_run};
ghost use Rattle.listruns.specs.Blocks.{Tops, Undotted, Paths};

use stringcheck::{list_count, string_count, var_count};
use tables::list_at;

// a run of items of one word stays in the lists
fn in_lists(s: &[u8], first: u32, items: u32) -> bool
    requires { bodies s.now ≡ true }
    ensures { ◌≡◌ {A = Bool} result (in_table (lists s.now) 1 first items) }
{
    first as usize + items as usize <= list_count(s) as usize
}

// ---- words below a bound: strings, variables

// the greatest word of the block from `at` on
fn block_top(s: &[u8], at: usize) -> u32
    requires s_value { bodies s.now ≡ true }
    requires at_bound { at < 4294967296 }
    ensures { result ≡ greatest 1024 (λ j. list s.now (at + j)) }
{
    let mut top = 0u32;
    for i in 0..1024 {
        top = top.max(list_at(s, at + i));
    }
    top
}

pub fn list_tops(s: &[u8]) -> [u32; 1024]
    requires s_value { bodies s.now ≡ true }
    requires s_value_2 { mosts s.now ≡ true }
    ensures { Tops s.now result }
{
    let mut tops = [0u32; 1024];
    for b in 0..list_count(s) as usize / 1024 {
        tops[b] = block_top(s, 1024 * b);
    }
    tops
}

// whether each word of a run is below a bound
fn below_run(s: &[u8], tops: &[u32; 1024], bound: u32, first: u32, items: u32) -> bool
    requires s_value { bodies s.now ≡ true }
    requires s_value_2 { mosts s.now ≡ true }
    requires tops { Tops s.now tops.now }
    ensures { ◌≡◌ {A = Bool} result (in_table (lists s.now) 1 first items and all_below items (λ i. ltb (list s.now (first + i)) bound)) }
{
    if !in_lists(s, first, items) {
        return false;
    }
    let mut i = 0;
    // a while: it goes on by a word or by a block
    while i < items {
        let at = first as usize + i as usize;
        if at % 1024 != 0 || items - i < 1024 {
            if bound <= list_at(s, at) {
                return false;
            }
            i += 1;
            continue;
        }
        if bound <= tops[at / 1024] {
            return false;
        }
        i += 1024;
    }
    true
}

pub fn string_run(s: &[u8], tops: &[u32; 1024], first: u32, items: u32) -> bool
    requires s_value { bodies s.now ≡ true }
    requires s_value_2 { mosts s.now ≡ true }
    requires tops { Tops s.now tops.now }
    ensures { ◌≡◌ {A = Bool} result (string_run s.now first items) }
{
    below_run(s, tops, string_count(s), first, items)
}

pub fn variable_run(s: &[u8], tops: &[u32; 1024], first: u32, items: u32) -> bool
    requires s_value { bodies s.now ≡ true }
    requires s_value_2 { mosts s.now ≡ true }
    requires tops { Tops s.now tops.now }
    ensures { ◌≡◌ {A = Bool} result (variable_run s.now first items) }
{
    below_run(s, tops, var_count(s), first, items)
}

// ---- paths: strings without a dot

// whether word i is a path's name
fn path_name(s: &[u8], undotted: &[bool; 16384], i: usize) -> bool
    requires s_value { bodies s.now ≡ true }
    requires s_value_2 { mosts s.now ≡ true }
    requires undotted { Undotted s.now undotted.now }
    ensures { ◌≡◌ {A = Bool} result (path_name s.now i) }
{
    let n = list_at(s, i);
    n < string_count(s) && undotted[n as usize]
}

// how far path names go on from the start of each block of 128 words; in a block the last store is its start's
pub fn path_blocks(s: &[u8], undotted: &[bool; 16384]) -> [u32; 8192]
    requires s_value { bodies s.now ≡ true }
    requires s_value_2 { mosts s.now ≡ true }
    requires undotted { Undotted s.now undotted.now }
    ensures { Paths s.now result }
{
    let mut end = list_count(s);
    let mut paths = [0u32; 8192];
    for i in (0..end).rev() {
        if !path_name(s, undotted, i as usize) {
            end = i;
        }
        paths[i as usize / 128] = end;
    }
    paths
}

// word by word up to a block's start, and from there on at once
pub fn path_run(
    s: &[u8],
    undotted: &[bool; 16384],
    paths: &[u32; 8192],
    first: u32,
    items: u32,
) -> bool
    requires s_value { bodies s.now ≡ true }
    requires s_value_2 { mosts s.now ≡ true }
    requires undotted { Undotted s.now undotted.now }
    requires paths { Paths s.now paths.now }
    ensures { ◌≡◌ {A = Bool} result (path_run s.now first items) }
{
    if !in_lists(s, first, items) {
        return false;
    }
    for i in 0..items {
        let at = first as usize + i as usize;
        if at % 128 == 0 {
            return first as usize + items as usize <= paths[at / 128] as usize;
        }
        if !path_name(s, undotted, at) {
            return false;
        }
    }
    true
}
