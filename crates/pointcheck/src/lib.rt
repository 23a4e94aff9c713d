// Refusal 5: points and entities.

#![tactic(auto)]

ghost use Rattle.std.specs.Prelude.{◌≡◌, Bool, true, ◌+◌, ◌*◌, ◌<◌};
ghost use Rattle.meaning.specs.Tests.{◌and◌, all_below};
ghost use Rattle.meaning.specs.Case.{text};
ghost use Rattle.meaning.specs.Check.{bodies, mosts, end_to_end, is_object, maybe_value, entity_before, is_string, entity_rule, entity_item, entity_run, point_rule, point_rules};
ghost use Rattle.listruns.specs.Blocks.{Tops, Unquoted, Entities};
ghost use Rattle.meaning.specs.Text.{free};

use listruns::string_run;
use meaning::ValNo;
use stringcheck::{free_strings, list_count, point_count, string_count, value_count};
use tables::{list_at, point_word, value_word};

// ---- points and entities

fn is_object(s: &[u8], v: u32) -> bool
    requires { bodies s.now ≡ true }
    ensures { ◌≡◌ {A = Bool} result (is_object s.now v) }
{
    v < value_count(s) && value_word(s, ValNo(v), 0) == 7
}

fn maybe_value(s: &[u8], v: u32) -> bool
    requires { bodies s.now ≡ true }
    ensures { ◌≡◌ {A = Bool} result (maybe_value s.now v) }
{
    v == u32::MAX || v < value_count(s)
}

// whether the entity at i comes before the one at j
fn entity_before(s: &[u8], i: usize, j: usize) -> bool
    requires s_value { bodies s.now ≡ true }
    requires i_bound { i < 4294967296 }
    requires j_bound { j < 4294967296 }
    ensures { ◌≡◌ {A = Bool} result (entity_before s.now i j) }
{
    let (one, other) = (list_at(s, i), list_at(s, j));
    one < other || (one == other && list_at(s, i + 1) < list_at(s, j + 1))
}

// a string without a quotation mark
fn entity_type(s: &[u8], unquoted: &[bool; 16384], n: u32) -> bool
    requires s_value { bodies s.now ≡ true }
    requires s_value_2 { mosts s.now ≡ true }
    requires unquoted { Unquoted s.now unquoted.now }
    ensures { ◌≡◌ {A = Bool} result (is_string s.now n and free 34 (text s.now n)) }
{
    n < string_count(s) && unquoted[n as usize]
}

fn entity_rule(s: &[u8], unquoted: &[bool; 16384], i: usize) -> bool
    requires s_value { bodies s.now ≡ true }
    requires s_value_2 { mosts s.now ≡ true }
    requires unquoted { Unquoted s.now unquoted.now }
    requires i_bound { i < 4294967296 }
    ensures { ◌≡◌ {A = Bool} result (entity_rule s.now i) }
{
    entity_type(s, unquoted, list_at(s, i))
        && list_at(s, i + 1) < string_count(s)
        && is_object(s, list_at(s, i + 2))
}

// item i of a run of entities: its own rule, and that it comes after the one before
fn entity_item(s: &[u8], unquoted: &[bool; 16384], first: u32, i: u32) -> bool
    requires s_value { bodies s.now ≡ true }
    requires s_value_2 { mosts s.now ≡ true }
    requires unquoted { Unquoted s.now unquoted.now }
    requires i_bound { first + 3 * i < 4294967296 }
    ensures { ◌≡◌ {A = Bool} result (entity_item s.now first i) }
{
    let at = first as usize + 3 * i as usize;
    entity_rule(s, unquoted, at) && (i == 0 || entity_before(s, at - 3, at))
}

// so many items of a run of entities, one by one
fn entity_items(s: &[u8], unquoted: &[bool; 16384], first: u32, items: u32) -> bool
    requires s_value { bodies s.now ≡ true }
    requires s_value_2 { mosts s.now ≡ true }
    requires unquoted { Unquoted s.now unquoted.now }
    requires bound { first + 3 * items < 4294967296 }
    ensures { ◌≡◌ {A = Bool} result (all_below items (entity_item s.now first)) }
{
    (0..items).all(|i| entity_item(s, unquoted, first, i))
}

// which blocks of 512 entities may stand in a run; entry 3 · b + r is the block that starts at word 1536 · b + r
fn entity_blocks(s: &[u8], unquoted: &[bool; 16384]) -> [bool; 2052]
    requires s_value { bodies s.now ≡ true }
    requires s_value_2 { mosts s.now ≡ true }
    requires unquoted { Unquoted s.now unquoted.now }
    ensures { Entities s.now result }
{
    let mut blocks = [false; 2052];
    for k in 0..3 * (list_count(s) / 1536) {
        blocks[k as usize] = entity_items(s, unquoted, 1536 * (k / 3) + k % 3, 512);
    }
    blocks
}

fn entity_run(
    s: &[u8],
    unquoted: &[bool; 16384],
    blocks: &[bool; 2052],
    first: u32,
    items: u32,
) -> bool
    requires s_value { bodies s.now ≡ true }
    requires s_value_2 { mosts s.now ≡ true }
    requires unquoted { Unquoted s.now unquoted.now }
    requires entities { Entities s.now blocks.now }
    ensures { ◌≡◌ {A = Bool} result (entity_run s.now first items) }
{
    if (list_count(s) as usize) < first as usize + 3 * items as usize {
        return false;
    }
    let mut i = 0;
    // a while: it goes on by an item or by a block
    while i < items {
        if !entity_item(s, unquoted, first, i) {
            return false;
        }
        let at = first as usize + 3 * i as usize;
        if 3 <= at % 1536 || items - i < 512 {
            i += 1;
            continue;
        }
        let k = 3 * (at / 1536) + at % 1536;
        if !blocks[k] {
            return false;
        }
        i += 512;
    }
    true
}

fn point_rule(
    s: &[u8],
    tops: &[u32; 1024],
    unquoted: &[bool; 16384],
    blocks: &[bool; 2052],
    p: usize,
) -> bool
    requires s_value { bodies s.now ≡ true }
    requires s_value_2 { mosts s.now ≡ true }
    requires tops { Tops s.now tops.now }
    requires unquoted { Unquoted s.now unquoted.now }
    requires entities { Entities s.now blocks.now }
    ensures { ◌≡◌ {A = Bool} result (point_rule s.now p) }
{
    let strings = string_count(s);
    string_run(s, tops, point_word(s, p, 2), point_word(s, p, 3))
        && point_word(s, p, 4) < strings
        && point_word(s, p, 5) < strings
        && is_object(s, point_word(s, p, 6))
        && is_object(s, point_word(s, p, 7))
        && maybe_value(s, point_word(s, p, 8))
        && maybe_value(s, point_word(s, p, 9))
        && entity_run(
            s,
            unquoted,
            blocks,
            point_word(s, p, 10),
            point_word(s, p, 11),
        )
}

pub fn check_points(s: &[u8], tops: &[u32; 1024]) -> bool
    requires s_value { bodies s.now ≡ true }
    requires s_value_2 { mosts s.now ≡ true }
    requires s_value_3 { end_to_end s.now ≡ true }
    requires tops { Tops s.now tops.now }
    ensures { ◌≡◌ {A = Bool} result (point_rules s.now) }
{
    let unquoted = free_strings(s, 34);
    let blocks = entity_blocks(s, &unquoted);
    (0..point_count(s) as usize).all(|p| point_rule(s, tops, &unquoted, &blocks, p))
}
