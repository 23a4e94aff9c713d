// The finished case of an unsorted one, put into a room of bytes.

#![tactic(auto)]

ghost use Rattle.std.specs.Prelude.{◌≡◌, Bool, true, [], ◌∷◌, ◌+◌, ◌*◌, ◌<◌, ◌≤◌, leb, length, get_or};
ghost use Rattle.laws.specs.Writing.{Writing};
ghost use Rattle.meaning.specs.Tests.{◌and◌};
ghost use Rattle.meaning.specs.Case.{vars, size};
ghost use Rattle.meaning.specs.Check.{bodies};
ghost use Rattle.encode.specs.Words.{packed};
ghost use Rattle.encode.specs.Encode.{flat, placed};
ghost use Rattle.encode.specs.Unsorted.{texts, value_names, node_names, marked, names, renamed, table, tables, parts, finished};
ghost use Rattle.joining.specs.Order.{Sorted};
ghost use Rattle.finish.specs.Sizes.{BodySize, Table, Sized, TextBytes, PartSize, Fits, Room, Put};

use encode::{copy_at, put_word};
use joining::{narrow, number_of, text_in};
use meaning::{NodeNo, StrNo, ValNo};
use stringcheck::var_count;
use tables::{body_word, node_word, size_of, value_word, wide};

// ---- sizes

// how many bytes body k has
fn body_size(s: &[u8], k: usize) -> usize
    requires s_value { bodies s.now ≡ true }
    requires k_bound { k < 7 }
    ensures { BodySize s.now k result }
{
    wide(size_of(s, k))
}

// how many bytes the different texts have together
pub fn text_bytes(s: &[u8], order: &[u32], n: usize) -> usize
    requires s_value { bodies s.now ≡ true }
    requires sorted { Sorted s.now order.now n }
    requires n_bound { n ≤ 16384 }
    ensures { TextBytes s.now result }
{
    let mut total = 0;
    for i in 0..n {
        total += text_in(s, StrNo(order[i])).len();
    }
    total
}

// ---- strings and text

// two words: where a part starts and how long it is
fn put_place(out: &mut [u8], at: usize, start: usize, size: usize)
    requires at_in_bounds { at + 8 ≤ length out.old }
    requires start_bound { (start ≤ u32.MAX) × (size ≤ u32.MAX) }
    ensures { Writing out.old out.new at (packed (start ∷ size ∷ [])) }
{
    put_word(out, at, narrow(start));
    put_word(out, at + 4, narrow(size));
}

fn put_strings(s: &[u8], order: &[u32], n: usize, out: &mut [u8], at: usize)
    requires s_value { bodies s.now ≡ true }
    requires sorted { Sorted s.now order.now n }
    requires n_in_bounds { (at + 8 * n ≤ length out.old) × (length (flat (texts s.now)) ≤ 4194304) }
    ensures { Writing out.old out.new at (packed (placed 0 (texts s.now))) }
{
    let mut start = 0;
    for i in 0..n {
        let size = text_in(s, StrNo(order[i])).len();
        put_place(out, at + 8 * i, start, size);
        start += size;
    }
}

// a piece from a place on: where the next goes
fn copy_text(out: &mut [u8], at: usize, piece: &[u8]) -> usize
    requires { at + length piece.now ≤ length out.old }
    ensures { Put out.old out.new at piece.now result }
{
    copy_at(out, at, piece);
    at + piece.len()
}

fn put_text(s: &[u8], order: &[u32], n: usize, out: &mut [u8], at: usize)
    requires s_value { bodies s.now ≡ true }
    requires sorted { Sorted s.now order.now n }
    requires s_in_bounds { at + length (flat (texts s.now)) ≤ length out.old }
    ensures { Writing out.old out.new at (flat (texts s.now)) }
{
    let mut next = at;
    for i in 0..n {
        next = copy_text(out, next, text_in(s, StrNo(order[i])));
    }
}

// ---- the other tables

// is n from low to high?
fn within(n: usize, low: usize, high: usize) -> bool
    ensures { ◌≡◌ {A = Bool} result (leb low n and leb n high) }
{
    low <= n && n <= high
}

// does word i of the values name a string?
fn value_names(s: &[u8], i: usize) -> bool
    requires s_value { bodies s.now ≡ true }
    requires i_bound { i ≤ u32.MAX }
    ensures { ◌≡◌ {A = Bool} result (value_names s.now i) }
{
    let kind = value_word(s, ValNo(narrow(i / 4)), 0);
    match i % 4 {
        1 => within(wide(kind), 3, 5),
        2 => kind == 5,
        _ => false,
    }
}

// does word i of the nodes name a string?
fn node_names(s: &[u8], i: usize) -> bool
    requires s_value { bodies s.now ≡ true }
    requires i_bound { i ≤ u32.MAX }
    ensures { ◌≡◌ {A = Bool} result (node_names s.now i) }
{
    let kind = node_word(s, NodeNo(narrow(i / 8)), 0);
    within(i % 8, 3, 4) && kind == 7
}

pub fn is_marked(marks: &[u8], i: usize) -> bool
    ensures { ◌≡◌ {A = Bool} result (marked marks.now i) }
{
    i < marks.len() && marks[i] != 0
}

// does word i of body k name a string?
fn is_name(s: &[u8], marks: &[u8], k: usize, i: usize) -> bool
    requires s_value { bodies s.now ≡ true }
    requires i_bound { i ≤ u32.MAX }
    ensures { ◌≡◌ {A = Bool} result (names s.now marks.now k i) }
{
    match k {
        1 => value_names(s, i),
        2 => i % 2 == 0,
        3 => within(i % 12, 4, 5),
        4 => node_names(s, i),
        5 => is_marked(marks, i),
        _ => false,
    }
}

fn renamed_word(s: &[u8], marks: &[u8], order: &[u32], n: usize, k: usize, i: usize) -> u32
    requires s_value { bodies s.now ≡ true }
    requires sorted { Sorted s.now order.now n }
    requires table { Table n k }
    requires i_bound { i ≤ u32.MAX }
    ensures { result ≡ renamed s.now marks.now k i }
{
    let w = body_word(s, k, i);
    if is_name(s, marks, k, i) {
        return number_of(s, order, n, w);
    }
    w
}

fn put_table(s: &[u8], marks: &[u8], order: &[u32], n: usize, k: usize, out: &mut [u8], at: usize)
    requires s_value { bodies s.now ≡ true }
    requires sorted { Sorted s.now order.now n }
    requires table { Table n k }
    requires k_in_bounds { at + size s.now k ≤ length out.old }
    ensures { Writing out.old out.new at (table s.now marks.now k) }
{
    let many = body_size(s, k) / 4;
    for i in 0..many {
        let w = renamed_word(s, marks, order, n, k, i);
        put_word(out, at + 4 * i, w);
    }
}

// ---- the whole

// how many bytes body k of the finished case has
pub fn part_size(s: &[u8], marks: &[u8], n: usize, total: usize, k: usize) -> usize
    requires s_value { bodies s.now ≡ true }
    requires sized { Sized s.now n total }
    requires k_bound { k < 7 }
    ensures { PartSize (get_or (parts s.now marks.now) k []) result }
{
    match k {
        0 => 8 * n,
        6 => total,
        _ => body_size(s, k),
    }
}

fn put_contents(s: &[u8], marks: &[u8], n: usize, total: usize, out: &mut [u8])
    requires s_value { bodies s.now ≡ true }
    requires sized { Sized s.now n total }
    requires fits { Fits (finished s.now marks.now) out.old }
    ensures { Writing out.old out.new 0 (packed (1 ∷ vars s.now ∷ placed 64 (parts s.now marks.now))) }
{
    put_word(out, 0, 1);
    put_word(out, 4, var_count(s));
    let mut at = 64;
    for k in 0..7 {
        let size = part_size(s, marks, n, total, k);
        put_place(out, 8 + 8 * k, at, size);
        at += size;
    }
}

// values to lists, one after another: where text comes
fn put_tables(s: &[u8], marks: &[u8], order: &[u32], n: usize, out: &mut [u8], at: usize) -> usize
    requires s_value { bodies s.now ≡ true }
    requires sorted { Sorted s.now order.now n }
    requires n_bound { n ≤ 16384 }
    requires room { Room at (flat (tables s.now marks.now)) out.old }
    ensures { Put out.old out.new at (flat (tables s.now marks.now)) result }
{
    let mut next = at;
    for i in 0..5 {
        put_table(s, marks, order, n, i + 1, out, next);
        next += body_size(s, i + 1);
    }
    next
}

// the finished case stands first in the room
pub fn finish(s: &[u8], marks: &[u8], order: &[u32], n: usize, total: usize, room: &mut [u8])
    requires s_value { bodies s.now ≡ true }
    requires sorted { Sorted s.now order.now n }
    requires sized { Sized s.now n total }
    requires fits { Fits (finished s.now marks.now) room.old }
    ensures { Writing room.old room.new 0 (finished s.now marks.now) }
{
    put_contents(s, marks, n, total, room);
    put_strings(s, order, n, room, 64);
    let at = put_tables(s, marks, order, n, room, 64 + 8 * n);
    put_text(s, order, n, room, at);
}
