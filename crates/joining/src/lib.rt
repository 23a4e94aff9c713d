// Strings sorted by their bytes, equal ones joined, and the new number of each.

#![tactic(auto)]

mod guess;
mod sift;

ghost use Rattle.std.specs.Prelude.{◌≡◌, ◌+◌, ◌-◌, ◌<◌, ◌≤◌, Bool, true, length};
ghost use Rattle.meaning.specs.Tests.{choose};
ghost use Rattle.meaning.specs.Case.{text, strings};
ghost use Rattle.meaning.specs.Check.{bodies};
ghost use Rattle.encode.specs.Join.{insert_new};
ghost use Rattle.encode.specs.Unsorted.{number, texts};
ghost use Rattle.joining.specs.Order.{Cut, Place, Stands, listed, InOrder, Joins, Sorted, Moved, Put};
ghost use Rattle.joining.specs.Fresh.{Fresh, together, Floor, Roof, Beside, Keeps, Reaches, Ready, Merged, Upto};
ghost use Rattle.joining.specs.Run.{onward, Run, Counted, Begun};
ghost use Rattle.joining.specs.Guess.{Few, Follows, Repeats, Grows, Seen, Takes, IsKept, PutsNext, KeepsOne, Sifts};

use guess::{guess, place_in};
use meaning::StrNo;
use sift::{is_often, likely, tell_all};
use stringcheck::{is_before, string_count};
use tables::{offset_of, size_of, string_word, wide};

// the bytes of string n, cut where text ends
pub fn text_in(s: &[u8], n: StrNo) -> &[u8]
    requires { bodies s.now ≡ true }
    ensures { Cut s.now n.0 result.now }
{
    let size = wide(size_of(s, 6));
    let body = wide(offset_of(s, 6));
    let from = wide(string_word(s, n, 0)).min(size);
    let many = wide(string_word(s, n, 1)).min(size - from);
    let start = body + from;
    let end = start + many;
    &s[start..end]
}

// how many of the first n texts are before x
fn place_of(s: &[u8], order: &[u32], n: usize, x: &[u8]) -> usize
    requires s_value { bodies s.now ≡ true }
    requires in_order { InOrder s.now order.now n }
    ensures { Place x.now (listed s.now order.now n) n result }
{
    let mut low = 0;
    let mut high = n;
    while low < high {
        let middle = low + (high - low) / 2;
        let k = order[middle];
        if is_before(text_in(s, StrNo(k)), x) {
            low = middle + 1;
        } else {
            high = middle;
        }
    }
    low
}

// does one stand at place p of n that x is not before?
fn stands_at(s: &[u8], order: &[u32], n: usize, p: usize, x: &[u8]) -> bool
    requires s_value { bodies s.now ≡ true }
    requires in_order { InOrder s.now order.now n }
    ensures { Stands x.now (listed s.now order.now n) n p result }
{
    p < n && !is_before(x, text_in(s, StrNo(order[p])))
}

// the entries from..n move up by so many
fn move_up(a: &mut [u32], from: usize, n: usize, by: usize)
    requires by_in_bounds { n + by ≤ length a.old }
    requires from_le_n { from ≤ n }
    requires by_nonzero { 0 < by }
    ensures { Moved from n by a.old a.new }
{
    for j in (from..n).rev() {
        a[j + by] = a[j];
    }
}

// the place of the fresh one before the q-th
fn floor_at(places: &[u32], q: usize) -> usize
    requires { q ≤ length places.now }
    ensures { Floor places.now q result }
{
    if q == 0 { 0 } else { wide(places[q - 1]) }
}

// the place of the q-th fresh one of m; where there is none, the end
fn roof_at(places: &[u32], m: usize, n: usize, q: usize) -> usize
    requires { m ≤ length places.now }
    ensures { Roof places.now m n q result }
{
    if m <= q { n } else { wide(places[q]) }
}

// k goes to place p of n, and what stood there moves one up
fn put_at(a: &mut [u32], p: usize, n: usize, k: u32)
    requires n_in_bounds { n < length a.old }
    requires p_le_n { p ≤ n }
    ensures { Put p n k a.old a.new }
{
    move_up(a, p, n, 1);
    a[p] = k;
}

// how many of the n in order are before x, which goes to place q of the m fresh ones
fn place_beside(
    s: &[u8],
    order: &[u32],
    n: usize,
    places: &[u32],
    m: usize,
    q: usize,
    x: &[u8],
) -> usize
    requires s_value { bodies s.now ≡ true }
    requires in_order { InOrder s.now order.now n }
    requires m_in_bounds { m ≤ length places.now }
    requires q_le_m { q ≤ m }
    requires beside { Beside s.now order.now n places.now m q x.now }
    ensures { Place x.now (listed s.now order.now n) n result }
{
    let low = floor_at(places, q);
    let high = roof_at(places, m, n, q);
    low + place_of(s, &order[low..], high - low, x)
}

// string k joins the m fresh texts, unless it stands there or in order: how many these are then, where there is room
fn join_one(
    s: &[u8],
    order: &[u32],
    n: usize,
    fresh: &mut [u32],
    places: &mut [u32],
    m: usize,
    k: u32,
) -> Option<usize>
    requires s_value { bodies s.now ≡ true }
    requires fresh { Fresh s.now order.now n fresh.old places.old m }
    requires m_in_bounds { m < length fresh.old }
    requires n_bound { n ≤ u32.MAX }
    ensures { Keeps s.now order.now n fresh.new places.new (insert_new (text s.now k) (together s.now order.now n fresh.old m)) result }
{
    let x = text_in(s, StrNo(k));
    let q = place_of(s, fresh, m, x);
    if stands_at(s, fresh, m, q, x) {
        return Some(m);
    }
    let p = place_beside(s, order, n, places, m, q, x);
    if stands_at(s, order, n, p, x) {
        return Some(m);
    }
    if order.len() <= n + m {
        return None;
    }
    put_at(fresh, q, m, k);
    put_at(places, q, m, narrow(p));
    Some(m + 1)
}

// strings from `from` on are joined, until there are as many fresh ones as fit: the next string, and how many are fresh
fn fill(
    s: &[u8],
    order: &[u32],
    n: usize,
    fresh: &mut [u32],
    places: &mut [u32],
    from: u32,
) -> Option<(u32, usize)>
    requires s_value { bodies s.now ≡ true }
    requires upto { Upto s.now order.now n from }
    requires from_bound { from < strings s.now }
    requires fresh_nonzero { 0 < length fresh.old }
    requires places_len { length places.old ≡ length fresh.old }
    ensures { Reaches s.now order.now n fresh.new places.new from result }
{
    let many = string_count(s);
    let mut m = 0;
    for k in from..many {
        if fresh.len() <= m {
            return Some((k, m));
        }
        let Some(more) = join_one(s, order, n, fresh, places, m, k) else {
            return None;
        };
        m = more;
    }
    Some((many, m))
}

// the m fresh entries go between the n in order, each to its place, from the last to the first
fn merge(order: &mut [u32], n: usize, fresh: &[u32], places: &[u32], m: usize)
    requires { Ready order.old n fresh.now places.now m }
    ensures { Merged order.old n fresh.now places.now m order.new }
{
    let mut end = n;
    for j in (0..m).rev() {
        let at = wide(places[j]);
        move_up(order, at, end, j + 1);
        order[at + j] = fresh[j];
        end = at;
    }
}

// is string k + 1 before string k, or after it?
fn goes_on(s: &[u8], k: u32, down: bool) -> bool
    requires s_value { bodies s.now ≡ true }
    requires k_bound { k < u32.MAX }
    ensures { ◌≡◌ {A = Bool} result (onward s.now down k) }
{
    let x = text_in(s, StrNo(k));
    let y = text_in(s, StrNo(k + 1));
    if down {
        is_before(y, x)
    } else {
        is_before(x, y)
    }
}

// how many strings, up to `many`, rise or fall from the first on
fn run_length(s: &[u8], many: u32, down: bool) -> u32
    requires s_value { bodies s.now ≡ true }
    requires many_nonzero { 0 < many }
    ensures { Run s.now many down result }
{
    for k in 1..many {
        if !goes_on(s, k - 1, down) {
            return k;
        }
    }
    many
}

// the i-th of 0 to n - 1, rising or falling
fn nth_of(n: u32, down: bool, i: u32) -> u32
    requires { i < n }
    ensures { result ≡ choose down (n - 1 - i) i }
{
    if down { n - 1 - i } else { i }
}

// all of them
fn put_run(order: &mut [u32], n: u32, down: bool)
    requires { n ≤ length order.old }
    ensures { Counted down n n order.new }
{
    for i in 0..n {
        let at = wide(i);
        order[at] = nth_of(n, down, i);
    }
}

// the strings at the front that rise or fall, at once
fn first_run(s: &[u8], order: &mut [u32]) -> u32
    requires { bodies s.now ≡ true }
    ensures { Begun s.now order.new result }
{
    let all = string_count(s);
    if all < 2 {
        return 0;
    }
    let down = goes_on(s, 0, true);
    let n = run_length(s, all, down);
    if order.len() < wide(n) {
        return 0;
    }
    put_run(order, n, down);
    n
}

// ---- a guess, checked

// is x after all of the n in order?
fn follows(s: &[u8], order: &[u32], n: usize, x: &[u8]) -> bool
    requires s_value { bodies s.now ≡ true }
    requires in_order { InOrder s.now order.now n }
    ensures { Follows x.now (listed s.now order.now n) n result }
{
    n == 0 || is_before(text_in(s, StrNo(order[n - 1])), x)
}

// is x the last of the n in order?
fn repeats(s: &[u8], order: &[u32], n: usize, x: &[u8]) -> bool
    requires s_value { bodies s.now ≡ true }
    requires in_order { InOrder s.now order.now n }
    ensures { Repeats x.now (listed s.now order.now n) result }
{
    n != 0 && x == text_in(s, StrNo(order[n - 1]))
}

// string k behind the n in order, where it goes there: how many are in order then
fn take_one(s: &[u8], order: &mut [u32], n: usize, k: u32) -> Option<usize>
    requires s_value { bodies s.now ≡ true }
    requires in_order { InOrder s.now order.old n }
    requires n_in_bounds { n < length order.old }
    ensures { Grows s.now order.old n k order.new result }
{
    let x = text_in(s, StrNo(k));
    if follows(s, order, n, x) {
        order[n] = k;
        return Some(n + 1);
    }
    if repeats(s, order, n, x) {
        return Some(n);
    }
    None
}

// are the first n seen?
fn all_seen(seen: &[bool; 16384], n: usize) -> bool
    requires { n ≤ 16384 }
    ensures { Seen seen.now n result }
{
    for i in 0..n {
        if !seen[i] {
            return false;
        }
    }
    true
}

// all strings are in order, each text once; or the first so many are joined: two answers, neither a failure
#[derive(Clone, Copy)]
pub enum Taken {
    All(usize),
    First(u32),
}

// ---- texts that are the same, kept once where that is told

// has string k the text of the j-th of the first m kept?
fn is_kept(s: &[u8], kept: &[u32], m: usize, j: usize, k: u32) -> bool
    requires s_value { bodies s.now ≡ true }
    requires m_in_bounds { m ≤ length kept.now }
    ensures { IsKept s.now kept.now m k result }
{
    j < m && text_in(s, StrNo(kept[j])) == text_in(s, StrNo(k))
}

// k is kept, where there is room: how many are kept then
fn put_next(kept: &mut [u32], m: usize, k: u32) -> Option<usize>
    requires { m ≤ length kept.old }
    ensures { PutsNext kept.old m k kept.new result }
{
    if kept.len() <= m {
        return None;
    }
    kept[m] = k;
    Some(m + 1)
}

// string k is kept, unless it has the text of the j-th
fn keep_one(s: &[u8], kept: &mut [u32], m: usize, j: usize, k: u32) -> Option<usize>
    requires s_value { bodies s.now ≡ true }
    requires m_in_bounds { m ≤ length kept.old }
    ensures { KeepsOne s.now kept.old m k kept.new result }
{
    if is_kept(s, kept, m, j, k) {
        return Some(m);
    }
    put_next(kept, m, k)
}

// string k is kept where it is behind them, and need not be where it is the last
fn keep_next(s: &[u8], kept: &mut [u32], m: usize, k: u32) -> Option<usize>
    requires s_value { bodies s.now ≡ true }
    requires m_in_bounds { m ≤ length kept.old }
    ensures { KeepsOne s.now kept.old m k kept.new result }
{
    if m == 0 {
        return put_next(kept, m, k);
    }
    let last = text_in(s, StrNo(kept[m - 1]));
    let x = text_in(s, StrNo(k));
    if is_before(last, x) {
        return put_next(kept, m, k);
    }
    if is_before(x, last) {
        return None;
    }
    Some(m)
}

// the first `upto` strings have the texts of `many` of them, which are kept; `rises` says whether these rise: no flag of
// the other two, which always hold
#[derive(Clone, Copy)]
pub struct Sifted {
    upto: u32,
    many: usize,
    rises: bool,
}

// the strings at the front that rise, or are the same
fn keep_rising(s: &[u8], all: u32, kept: &mut [u32]) -> Sifted
    requires { bodies s.now ≡ true }
    ensures { Sifts s.now kept.new all result.many result.upto }
{
    let mut m = 0;
    for k in 0..all {
        let Some(more) = keep_next(s, kept, m, k) else {
            return Sifted {
                upto: k,
                many: m,
                rises: true,
            };
        };
        m = more;
    }
    Sifted {
        upto: all,
        many: m,
        rises: true,
    }
}

// and the others, where texts may be told by a table of those kept
fn keep_others(
    s: &[u8],
    all: u32,
    told: bool,
    kept: &mut [u32],
    table: &mut [u64; 16384],
    upto: u32,
    many: usize,
) -> Sifted
    requires s_value { bodies s.now ≡ true }
    requires sifts { Sifts s.now kept.old all many upto }
    ensures { Sifts s.now kept.new all result.many result.upto }
{
    let mut m = many;
    for k in upto..all {
        let Some(more) = keep_one(s, kept, m, likely(s, table, told, k, m), k) else {
            return Sifted {
                upto: k,
                many: m,
                rises: false,
            };
        };
        m = more;
    }
    Sifted {
        upto: all,
        many: m,
        rises: m == many,
    }
}

// all of them, as far as there is room
fn keep_all(s: &[u8], all: u32, kept: &mut [u32], table: &mut [u64; 16384]) -> Sifted
    requires { bodies s.now ≡ true }
    ensures { Sifts s.now kept.new all result.many result.upto }
{
    let first = keep_rising(s, all, kept);
    let told = is_often(s, all, first.upto);
    tell_all(s, table, told, kept, first.many);
    keep_others(s, all, told, kept, table, first.upto, first.many)
}

// ---- a guess, checked: all of those kept

// as the table has them, as long as they rise: nothing, where one is missing
fn gather(s: &[u8], kept: &[u32], table: &[u64; 16384], many: usize, order: &mut [u32]) -> Taken
    requires s_value { bodies s.now ≡ true }
    requires few { Few s.now kept.now many order.old }
    ensures { Takes s.now order.new result }
{
    let mut seen = [false; 16384];
    let mut n = 0;
    for i in 0..many {
        let at = place_in(table[i]);
        if many <= at {
            return Taken::First(0);
        }
        let Some(more) = take_one(s, order, n, kept[at]) else {
            return Taken::First(0);
        };
        n = more;
        seen[at] = true;
    }
    if all_seen(&seen, many) {
        return Taken::All(n);
    }
    Taken::First(0)
}

// where these are all texts, and fit
fn take_kept(
    s: &[u8],
    all: u32,
    kept: &[u32],
    table: &[u64; 16384],
    upto: u32,
    many: usize,
    order: &mut [u32],
) -> Taken
    requires s_value { bodies s.now ≡ true }
    requires all_value { all ≡ strings s.now }
    requires sifts { Sifts s.now kept.now all many upto }
    ensures { Takes s.now order.new result }
{
    if upto < all || order.len() < many || 16384 < many {
        return Taken::First(0);
    }
    gather(s, kept, table, many, order)
}

// by a guess
fn take_guessed(s: &[u8], all: u32, order: &mut [u32]) -> Taken
    requires s_value { bodies s.now ≡ true }
    requires all_value { all ≡ strings s.now }
    ensures { Takes s.now order.new result }
{
    let mut kept = [0u32; 16384];
    let mut table = [0u64; 16384];
    let sifted = keep_all(s, all, &mut kept, &mut table);
    guess(s, &kept, !sifted.rises, sifted.many, &mut table);
    take_kept(s, all, &kept, &table, sifted.upto, sifted.many, order)
}

// do some of many strings rise and others fall? then no run is looked for
fn turns(s: &[u8], all: u32) -> bool
    requires { bodies s.now ≡ true }
{
    if all < 512 {
        return false;
    }
    let step = all / 16;
    let down = goes_on(s, 0, true);
    for k in (0..all).step_by(step as usize) {
        if !goes_on(s, k, down) {
            return true;
        }
    }
    false
}

// those at the front that rise or fall; or all by a guess, where that is worth it
fn take_first(s: &[u8], order: &mut [u32]) -> Taken
    requires { bodies s.now ≡ true }
    ensures { Takes s.now order.new result }
{
    let all = string_count(s);
    if turns(s, all) {
        return take_guessed(s, all, order);
    }
    let k = first_run(s, order);
    if all <= k || all < 512 {
        return Taken::First(k);
    }
    take_guessed(s, all, order)
}

// ---- all strings

// with the first so many joined
fn join_from(s: &[u8], order: &mut [u32], from: u32) -> Option<usize>
    requires s_value { bodies s.now ≡ true }
    requires begun { Begun s.now order.old from }
    ensures { Joins s.now order.new (texts s.now) result }
{
    let many = string_count(s);
    let mut fresh = [0u32; 256];
    let mut places = [0u32; 256];
    let mut k = from;
    let mut n = wide(k);
    // a while: each turn goes on where the one before it stopped
    while k < many {
        let Some((next, m)) = fill(s, order, n, &mut fresh, &mut places, k) else {
            return None;
        };
        merge(order, n, &fresh, &places, m);
        n += m;
        k = next;
    }
    Some(n)
}

// all strings in order, each text once: how many there are, where there is room
pub fn join_strings(s: &[u8], order: &mut [u32]) -> Option<usize>
    requires { bodies s.now ≡ true }
    ensures { Joins s.now order.new (texts s.now) result }
{
    match take_first(s, order) {
        Taken::All(n) => Some(n),
        Taken::First(k) => join_from(s, order, k),
    }
}

pub fn narrow(n: usize) -> u32
    requires { n ≤ u32.MAX }
    ensures { result ≡ n }
{
    n as u32
}

// the new number of a word that names a string
pub fn number_of(s: &[u8], order: &[u32], n: usize, w: u32) -> u32
    requires s_value { bodies s.now ≡ true }
    requires sorted { Sorted s.now order.now n }
    requires n_bound { n ≤ 16384 }
    ensures { result ≡ number s.now w }
{
    if string_count(s) <= w {
        return w;
    }
    narrow(place_of(s, order, n, text_in(s, StrNo(w))))
}
