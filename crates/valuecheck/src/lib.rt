// Refusal 4: members and values; and what later rules ask of values. Runs of members may overlap, so they are read by blocks of 512.

#![tactic(auto)]

ghost use Rattle.std.specs.Prelude.{◌≡◌, Bool, true, false, ◌+◌, ◌*◌, ◌/◌, ◌<◌, ◌≤◌, max, get_or};
ghost use Rattle.meaning.specs.Tests.{◌and◌, all_below, greatest};
ghost use Rattle.meaning.specs.Case.{values, members, member_word};
ghost use Rattle.meaning.specs.Check.{bodies, mosts, in_table, member_rule, array_item, object_item, rest_zero, value_rule, value_rules, depth_rule, depth, part_count, part_value, literal};
ghost use Rattle.laws.specs.Tests.{Filled};
ghost use Rattle.laws.specs.Values.{Runs};
ghost use Rattle.valuecheck.specs.Blocks.{top_of, object_name, object_top, Lower, Depths, Marked};

use meaning::ValNo;
use stringcheck::{member_count, string_count, value_count};
use tables::{member_word, value_word};

// ---- members

fn member_rule(s: &[u8], m: usize) -> bool
    requires { bodies s.now ≡ true }
    ensures { ◌≡◌ {A = Bool} result (member_rule s.now m) }
{
    let name = member_word(s, m, 0);
    (name == u32::MAX || name < string_count(s)) && member_word(s, m, 1) < value_count(s)
}

fn check_members(s: &[u8]) -> bool
    requires { bodies s.now ≡ true }
    ensures { ◌≡◌ {A = Bool} result (all_below (members s.now) (member_rule s.now)) }
{
    (0..member_count(s) as usize).all(|m| member_rule(s, m))
}

// ---- arrays and objects

fn array_item(s: &[u8], v: u32, first: u32, i: u32) -> bool
    requires { bodies s.now ≡ true }
    ensures { ◌≡◌ {A = Bool} result (array_item s.now v first i) }
{
    let at = first as usize + i as usize;
    member_word(s, at, 0) == u32::MAX && member_word(s, at, 1) < v
}

fn object_item(s: &[u8], v: u32, first: u32, i: u32) -> bool
    requires { bodies s.now ≡ true }
    ensures { ◌≡◌ {A = Bool} result (object_item s.now v first i) }
{
    let (first, i) = (first as usize, i as usize);
    name_follows(s, first, i) && member_word(s, first + i, 1) < v
}

// an array may hold the whole of the block from `at` on if its number is above this
fn block_top(s: &[u8], at: usize) -> u32
    requires s_value { bodies s.now ≡ true }
    requires at_bound { at < 4294967296 }
    ensures { result ≡ top_of s.now at }
{
    let mut top = 0u32;
    for i in 0..512 {
        if member_word(s, at + i, 0) != u32::MAX {
            return u32::MAX;
        }
        top = top.max(member_word(s, at + i, 1));
    }
    top
}

// block_tops, object_tops and listruns::list_tops: three lines each; one function of a closure needs a longer contract than all
fn block_tops(s: &[u8]) -> [u32; 1024]
    requires s_value { bodies s.now ≡ true }
    requires s_value_2 { mosts s.now ≡ true }
    ensures { Filled 0 (λ b. top_of s.now (512 * b)) result (members s.now / 512) }
{
    let mut tops = [0u32; 1024];
    for b in 0..member_count(s) as usize / 512 {
        tops[b] = block_top(s, 512 * b);
    }
    tops
}

fn array_items(s: &[u8], tops: &[u32; 1024], v: u32, first: u32, items: u32) -> bool
    requires s_value { bodies s.now ≡ true }
    requires s_value_2 { mosts s.now ≡ true }
    requires filled { Filled 0 (λ b. top_of s.now (512 * b)) tops.now (members s.now / 512) }
    requires bound { first + items ≤ members s.now }
    ensures { ◌≡◌ {A = Bool} result (all_below items (array_item s.now v first)) }
{
    let mut i = 0;
    // a while: it goes on by an item or by a block
    while i < items {
        let at = first as usize + i as usize;
        if at % 512 != 0 || items - i < 512 {
            if !array_item(s, v, first, i) {
                return false;
            }
            i += 1;
            continue;
        }
        if v <= tops[at / 512] {
            return false;
        }
        i += 512;
    }
    true
}

// the name of item i from `at` on is a string, after the one before it
fn name_follows(s: &[u8], at: usize, i: usize) -> bool
    requires s_value { bodies s.now ≡ true }
    requires at_bound { at < 4294967296 }
    requires i_bound { i < 4294967296 }
    ensures { ◌≡◌ {A = Bool} result (object_name s.now at i) }
{
    let name = member_word(s, at + i, 0);
    name < string_count(s) && (i == 0 || member_word(s, at + i - 1, 0) < name)
}

// an object may hold the block from `at` on, whose first name follows what is before it, if its number is above this
fn object_top(s: &[u8], at: usize) -> u32
    requires s_value { bodies s.now ≡ true }
    requires at_bound { at < 4294967296 }
    ensures { result ≡ object_top s.now at }
{
    let mut top = 0u32;
    for i in 0..512 {
        if !name_follows(s, at, i) {
            return u32::MAX;
        }
        top = top.max(member_word(s, at + i, 1));
    }
    top
}

fn object_tops(s: &[u8]) -> [u32; 1024]
    requires s_value { bodies s.now ≡ true }
    requires s_value_2 { mosts s.now ≡ true }
    ensures { Filled 0 (λ b. object_top s.now (512 * b)) result (members s.now / 512) }
{
    let mut tops = [0u32; 1024];
    for b in 0..member_count(s) as usize / 512 {
        tops[b] = object_top(s, 512 * b);
    }
    tops
}

fn object_items(s: &[u8], tops: &[u32; 1024], v: u32, first: u32, items: u32) -> bool
    requires s_value { bodies s.now ≡ true }
    requires s_value_2 { mosts s.now ≡ true }
    requires filled { Filled 0 (λ b. object_top s.now (512 * b)) tops.now (members s.now / 512) }
    requires bound { first + items ≤ members s.now }
    ensures { ◌≡◌ {A = Bool} result (all_below items (object_item s.now v first)) }
{
    let mut i = 0;
    // a while: it goes on by an item or by a block
    while i < items {
        if !object_item(s, v, first, i) {
            return false;
        }
        let at = first as usize + i as usize;
        if at % 512 != 0 || items - i < 512 {
            i += 1;
            continue;
        }
        if v <= tops[at / 512] {
            return false;
        }
        i += 512;
    }
    true
}

// a run of items lies among the members
fn in_members(s: &[u8], first: u32, items: u32) -> bool
    requires { bodies s.now ≡ true }
    ensures { ◌≡◌ {A = Bool} result (in_table (members s.now) 1 first items) }
{
    first as usize + items as usize <= member_count(s) as usize
}

// ---- values

// words b and c are unused
fn rest_zero(s: &[u8], v: u32) -> bool
    requires { bodies s.now ≡ true }
    ensures { ◌≡◌ {A = Bool} result (rest_zero s.now v) }
{
    value_word(s, ValNo(v), 2) == 0 && value_word(s, ValNo(v), 3) == 0
}

fn value_rule(s: &[u8], tops: &[u32; 1024], objects: &[u32; 1024], v: u32) -> bool
    requires s_value { bodies s.now ≡ true }
    requires s_value_2 { mosts s.now ≡ true }
    requires filled { Filled 0 (λ b. top_of s.now (512 * b)) tops.now (members s.now / 512) }
    requires filled_2 { Filled 0 (λ b. object_top s.now (512 * b)) objects.now (members s.now / 512) }
    ensures { ◌≡◌ {A = Bool} result (value_rule s.now v) }
{
    let n = string_count(s);
    let kind = value_word(s, ValNo(v), 0);
    let a = value_word(s, ValNo(v), 1);
    let b = value_word(s, ValNo(v), 2);
    let c = value_word(s, ValNo(v), 3);
    // kinds by number: the words that a kind leaves unused have rules too, which no enum of values has
    match kind {
        0 => a == 0 && rest_zero(s, v),
        1 => a <= 1 && rest_zero(s, v),
        2 => c == 0,
        3 | 4 => a < n && rest_zero(s, v),
        5 => a < n && b < n && c == 0,
        6 => c == 0 && in_members(s, a, b) && array_items(s, tops, v, a, b),
        7 => c == 0 && in_members(s, a, b) && object_items(s, objects, v, a, b),
        _ => false,
    }
}

fn check_each_value(s: &[u8]) -> bool
    requires s_value { bodies s.now ≡ true }
    requires s_value_2 { mosts s.now ≡ true }
    ensures { ◌≡◌ {A = Bool} result (all_below (values s.now) (value_rule s.now)) }
{
    let tops = block_tops(s);
    let objects = object_tops(s);
    (0..value_count(s)).all(|v| value_rule(s, &tops, &objects, v))
}

// ---- depth: children are lower, so one pass upward; a block's greatest depth is kept once it is known

// the greatest depth of what the block from `at` on holds, which is below v
fn block_depth(s: &[u8], depths: &[u8; 16384], at: usize, v: u32) -> u8
    requires s_value { bodies s.now ≡ true }
    requires at_bound { at < 4294967296 }
    requires v_bound { v ≤ 16384 }
    requires filled { Filled 0 (depth s.now) depths.now v }
    requires lower { Lower s.now v at 512 }
    ensures { result ≡ greatest 512 (λ j. depth s.now (member_word s.now (at + j) 1)) }
{
    let mut best = 0u8;
    for i in 0..512 {
        let held = member_word(s, at + i, 1) as usize;
        best = best.max(depths[held]);
    }
    best
}

// the greatest depth of what value v holds
fn deepest(s: &[u8], depths: &[u8; 16384], blocks: &mut [u8; 1024], v: u32) -> u8
    requires s_value { bodies s.now ≡ true }
    requires s_value_2 { mosts s.now ≡ true }
    requires filled { Filled 0 (depth s.now) depths.now v }
    requires runs { Runs s.now v v }
    requires depths { Depths s.now blocks.old }
    ensures value { result ≡ greatest (part_count s.now v) (λ i. depth s.now (part_value s.now v i)) }
    ensures depths_2 { Depths s.now blocks.new }
{
    if value_word(s, ValNo(v), 0) < 6 {
        return 0;
    }
    let first = value_word(s, ValNo(v), 1) as usize;
    let items = value_word(s, ValNo(v), 2) as usize;
    let mut best = 0u8;
    let mut i = 0;
    // a while: it goes on by an item or by a block
    while i < items {
        let at = first + i;
        if at % 512 != 0 || items - i < 512 {
            let held = member_word(s, at, 1) as usize;
            best = best.max(depths[held]);
            i += 1;
            continue;
        }
        let b = at / 512;
        let known = blocks[b];
        if known != 0 {
            best = best.max(known);
            i += 512;
            continue;
        }
        let found = block_depth(s, depths, at, v);
        blocks[b] = found;
        best = best.max(found);
        i += 512;
    }
    best
}

fn check_depths(s: &[u8]) -> bool
    requires s_value { bodies s.now ≡ true }
    requires s_value_2 { mosts s.now ≡ true }
    requires s_value_3 { all_below (values s.now) (value_rule s.now) ≡ true }
    ensures { ◌≡◌ {A = Bool} result (all_below (values s.now) (depth_rule s.now)) }
{
    let mut depths = [0u8; 16384];
    let mut blocks = [0u8; 1024];
    for v in 0..value_count(s) {
        let d = deepest(s, &depths, &mut blocks, v);
        if 32 <= d {
            return false;
        }
        depths[v as usize] = d + 1;
    }
    true
}

pub fn check_values(s: &[u8]) -> bool
    requires s_value { bodies s.now ≡ true }
    requires s_value_2 { mosts s.now ≡ true }
    ensures { ◌≡◌ {A = Bool} result (value_rules s.now) }
{
    check_members(s) && check_each_value(s) && check_depths(s)
}

// ---- what holds throughout a value: one table of marks, filled upward; a block that is marked throughout is kept

// whether all that the block from `at` on holds, which is below v, is marked
fn block_marked(s: &[u8], marks: &[bool; 16384], at: usize, v: u32) -> bool
    requires s_value { bodies s.now ≡ true }
    requires at_bound { at < 4294967296 }
    requires v_bound { v ≤ 16384 }
    requires lower { Lower s.now v at 512 }
    ensures { ◌≡◌ {A = Bool} result (all_below 512 (λ j. get_or marks.now (member_word s.now (at + j) 1) false)) }
{
    for i in 0..512 {
        let held = member_word(s, at + i, 1) as usize;
        if !marks[held] {
            return false;
        }
    }
    true
}

// whether all that value v holds is marked
pub fn parts_marked(s: &[u8], marks: &[bool; 16384], blocks: &mut [bool; 1024], v: u32) -> bool
    requires s_value { bodies s.now ≡ true }
    requires s_value_2 { mosts s.now ≡ true }
    requires runs { Runs s.now v v }
    requires marked { Marked s.now marks.now v blocks.old }
    ensures fact { ◌≡◌ {A = Bool} result (all_below (part_count s.now v) (λ i. get_or marks.now (part_value s.now v i) false)) }
    ensures marked_2 { Marked s.now marks.now v blocks.new }
{
    let kind = value_word(s, ValNo(v), 0);
    if kind < 6 {
        return true;
    }
    let first = value_word(s, ValNo(v), 1) as usize;
    let items = value_word(s, ValNo(v), 2) as usize;
    let mut i = 0;
    // a while: it goes on by an item or by a block
    while i < items {
        let at = first + i;
        if at % 512 != 0 || items - i < 512 {
            let held = member_word(s, at, 1) as usize;
            if !marks[held] {
                return false;
            }
            i += 1;
            continue;
        }
        let b = at / 512;
        if blocks[b] {
            i += 512;
            continue;
        }
        if !block_marked(s, marks, at, v) {
            return false;
        }
        blocks[b] = true;
        i += 512;
    }
    true
}

// which values have no Null and no Object in them
pub fn literal_values(s: &[u8]) -> [bool; 16384]
    requires s_value { bodies s.now ≡ true }
    requires s_value_2 { mosts s.now ≡ true }
    requires s_value_3 { all_below (values s.now) (value_rule s.now) ≡ true }
    ensures { Filled false (literal s.now) result (values s.now) }
{
    let mut marks = [false; 16384];
    let mut blocks = [false; 1024];
    for v in 0..value_count(s) {
        let kind = value_word(s, ValNo(v), 0);
        let whole = parts_marked(s, &marks, &mut blocks, v);
        marks[v as usize] = whole & (kind != 0) & (kind != 7);
    }
    marks
}
