// Refusal 25: whether a point reaches an object that would be read as one of Cedar's forms. Runs overlap, so members and entities are asked by blocks of 512.

#![tactic(auto)]

ghost use Rattle.std.specs.Prelude.{◌≡◌, Bool, false, ◌+◌, ◌*◌, ◌<◌, ◌≤◌};
ghost use Rattle.meaning.specs.Tests.{◌and◌, all_below};
ghost use Rattle.meaning.specs.Case.{values, points, lists, point_at, point_word};
ghost use Rattle.meaning.specs.Check.{Checked};
ghost use Rattle.laws.specs.Tests.{Filled};
ghost use Rattle.jsontrace.specs.Export.{event_of, point_events, form_name, clear_event, clear_events};
ghost use Rattle.jsonclear.specs.Clear.{own_clear, clear_at, mark_at, maybe_marked, entity_clear, Entities, fields_clear};

use jsonput::words_of;
use meaning::{StrNo, ValNo};
use stringcheck::{list_count, point_count, value_count};
use tables::{list_at, member_word, point_word, text_of};
use valuecheck::parts_marked;

fn form_name(t: &[u8]) -> bool
    ensures { ◌≡◌ {A = Bool} result (form_name t.now) }
{
    t == b"__entity".as_slice() || t == b"__extn".as_slice()
}

// not an object of one member alone that has such a name
fn own_clear(s: &[u8], v: u32) -> bool
    requires { Checked s.now }
    ensures { ◌≡◌ {A = Bool} result (own_clear s.now v) }
{
    let h = words_of(s, ValNo(v));
    h.kind != 7
        || h.items != 1
        || !form_name(text_of(s, StrNo(member_word(s, h.first as usize, 0))))
}

// which values have no such object in them: what a value holds has lower numbers
fn clear_values(s: &[u8]) -> [bool; 16384]
    requires { Checked s.now }
    ensures { Filled false (clear_at s.now) result (values s.now) }
{
    let n = value_count(s);
    let mut marks = [false; 16384];
    let mut blocks = [false; 1024];
    for v in 0..n {
        // both are asked, since the second fills the blocks
        let own = own_clear(s, v);
        let parts = parts_marked(s, &marks, &mut blocks, v);
        marks[v as usize] = own && parts;
    }
    marks
}

// a value by its mark; none is clear
fn is_clear(marks: &[bool; 16384], v: u32) -> bool
    ensures { ◌≡◌ {A = Bool} result (mark_at marks.now v) }
{
    v < 16384 && marks[v as usize]
}

fn maybe_clear(marks: &[bool; 16384], v: u32) -> bool
    ensures { ◌≡◌ {A = Bool} result (maybe_marked marks.now v) }
{
    v == u32::MAX || is_clear(marks, v)
}

// ---- entities: three words each

// so many entities from place m of the lists on, one by one
fn entities_clear(s: &[u8], marks: &[bool; 16384], first: usize, items: usize) -> bool
    requires checked { Checked s.now }
    requires bound { first + 3 * items < 4294967296 }
    ensures { ◌≡◌ {A = Bool} result (all_below items (entity_clear s.now marks.now first)) }
{
    for i in 0..items {
        if !is_clear(marks, list_at(s, first + 3 * i + 2)) {
            return false;
        }
    }
    true
}

// which blocks of 512 entities are clear; entry 3 · b + r is the block that starts at word 1536 · b + r
fn entity_blocks(s: &[u8], marks: &[bool; 16384]) -> [bool; 2052]
    requires { Checked s.now }
    ensures { Entities s.now marks.now result }
{
    let n = 3 * (list_count(s) as usize / 1536);
    let mut blocks = [false; 2052];
    for k in 0..n {
        blocks[k] = entities_clear(s, marks, 1536 * (k / 3) + k % 3, 512);
    }
    blocks
}

// a run of entities
fn run_clear(
    s: &[u8],
    marks: &[bool; 16384],
    blocks: &[bool; 2052],
    first: usize,
    items: usize,
) -> bool
    requires checked { Checked s.now }
    requires bound { first + 3 * items ≤ lists s.now }
    requires bound_2 { first + 3 * items < 4294967296 }
    requires entities { Entities s.now marks.now blocks.now }
    ensures { ◌≡◌ {A = Bool} result (all_below items (entity_clear s.now marks.now first)) }
{
    let mut i = 0;
    // a while: a step is one entity or a block of 512, which no range says
    while i < items {
        let at = first + 3 * i;
        if 3 <= at % 1536 || items - i < 512 {
            if !is_clear(marks, list_at(s, at + 2)) {
                return false;
            }
            i += 1;
            continue;
        }
        let k = 3 * (at / 1536) + at % 1536;
        if !blocks[k] {
            return false;
        }
        i += 512;
    }
    true
}

// ---- points

// logged and context
fn records_clear(s: &[u8], marks: &[bool; 16384], p: usize) -> bool
    requires { Checked s.now }
    ensures { ◌≡◌ {A = Bool} result (mark_at marks.now (point_word s.now p 6) and mark_at marks.now (point_word s.now p 7)) }
{
    is_clear(marks, point_word(s, p, 6)) && is_clear(marks, point_word(s, p, 7))
}

// principal and resource
fn parties_clear(s: &[u8], marks: &[bool; 16384], p: usize) -> bool
    requires { Checked s.now }
    ensures { ◌≡◌ {A = Bool} result (maybe_marked marks.now (point_word s.now p 8) and maybe_marked marks.now (point_word s.now p 9)) }
{
    maybe_clear(marks, point_word(s, p, 8)) && maybe_clear(marks, point_word(s, p, 9))
}

fn fields_clear(s: &[u8], marks: &[bool; 16384], p: usize) -> bool
    requires { Checked s.now }
    ensures { ◌≡◌ {A = Bool} result (fields_clear s.now marks.now p) }
{
    records_clear(s, marks, p) && parties_clear(s, marks, p)
}

fn point_clear(s: &[u8], marks: &[bool; 16384], blocks: &[bool; 2052], p: usize) -> bool
    requires checked { Checked s.now }
    requires p_bound { p < points s.now }
    requires filled { Filled false (clear_at s.now) marks.now (values s.now) }
    requires entities { Entities s.now marks.now blocks.now }
    ensures { ◌≡◌ {A = Bool} result (clear_event (event_of s.now (point_at s.now p))) }
{
    if !fields_clear(s, marks, p) {
        return false;
    }
    let first = point_word(s, p, 10);
    let items = point_word(s, p, 11);
    run_clear(s, marks, blocks, first as usize, items as usize)
}

// no point reaches such an object
pub fn all_clear(s: &[u8]) -> bool
    requires { Checked s.now }
    ensures { ◌≡◌ {A = Bool} result (clear_events (point_events s.now)) }
{
    let marks = clear_values(s);
    let blocks = entity_blocks(s, &marks);
    let n = point_count(s) as usize;
    for p in 0..n {
        if !point_clear(s, &marks, &blocks, p) {
            return false;
        }
    }
    true
}
