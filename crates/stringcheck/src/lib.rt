// Refusals 1 to 3: contents and bodies, mosts, strings; and what later rules ask of strings.

#![tactic(auto)]

ghost use Rattle.std.specs.Prelude.{◌≡◌, Bool, true, false, ◌+◌, ◌<◌, ◌≤◌, max, length, get_or};
ghost use Rattle.meaning.specs.Tests.{all_below, choose, greatest};
ghost use Rattle.meaning.specs.Text.{before, free, utf8, first, follow, next, ended};
ghost use Rattle.meaning.specs.Case.{strings, values, members, points, nodes, lists, vars, text};
ghost use Rattle.meaning.specs.Check.{record_bytes, bodies, mosts, end_to_end, utf8_rule, order_rule, string_rules};
ghost use Rattle.laws.specs.Tests.{Filled};
ghost use Rattle.stringcheck.specs.Eight.{Eight};
ghost use Rattle.stringcheck.specs.Letters.{lies_at, two_follow, three_follow, LetterAt};

use meaning::{Due, StrNo};
use tables::{contents_word, offset_of, size_of, string_word, text_of};

// ---- 1: contents and bodies

fn record_bytes(k: usize) -> usize
    requires { k < 7 }
    ensures { (result ≡ record_bytes k) × (0 < result) }
{
    match k {
        0 | 2 => 8,
        1 => 16,
        3 => 48,
        4 => 32,
        5 => 4,
        _ => 1,
    }
}

pub fn check_bodies(s: &[u8]) -> bool
    ensures { ◌≡◌ {A = Bool} result (bodies s.now) }
{
    if s.len() < 64 || contents_word(s, 0) != 1 {
        return false;
    }
    let mut at = 64;
    for k in 0..7 {
        let start = offset_of(s, k) as usize;
        if start != at {
            return false;
        }
        let size = size_of(s, k) as usize;
        if size % record_bytes(k) != 0 {
            return false;
        }
        at += size;
    }
    at == s.len()
}

// ---- how many records there are

pub fn string_count(s: &[u8]) -> u32
    requires { bodies s.now ≡ true }
    ensures { result ≡ strings s.now }
{
    size_of(s, 0) / 8
}

pub fn value_count(s: &[u8]) -> u32
    requires { bodies s.now ≡ true }
    ensures { result ≡ values s.now }
{
    size_of(s, 1) / 16
}

pub fn member_count(s: &[u8]) -> u32
    requires { bodies s.now ≡ true }
    ensures { result ≡ members s.now }
{
    size_of(s, 2) / 8
}

pub fn point_count(s: &[u8]) -> u32
    requires { bodies s.now ≡ true }
    ensures { result ≡ points s.now }
{
    size_of(s, 3) / 48
}

pub fn node_count(s: &[u8]) -> u32
    requires { bodies s.now ≡ true }
    ensures { result ≡ nodes s.now }
{
    size_of(s, 4) / 32
}

pub fn list_count(s: &[u8]) -> u32
    requires { bodies s.now ≡ true }
    ensures { result ≡ lists s.now }
{
    size_of(s, 5) / 4
}

pub fn var_count(s: &[u8]) -> u32
    requires { bodies s.now ≡ true }
    ensures { result ≡ vars s.now }
{
    contents_word(s, 1)
}

// ---- 2: mosts

pub fn check_mosts(s: &[u8]) -> bool
    requires { bodies s.now ≡ true }
    ensures { ◌≡◌ {A = Bool} result (mosts s.now) }
{
    s.len() <= 4194304
        && string_count(s) <= 16384
        && value_count(s) <= 16384
        && point_count(s) <= 16384
        && node_count(s) <= 1024
        && var_count(s) <= 16
}

// ---- 3: strings

// strings lie end to end and fill text
fn end_to_end(s: &[u8]) -> bool
    requires { bodies s.now ≡ true }
    ensures { ◌≡◌ {A = Bool} result (end_to_end s.now) }
{
    let room = size_of(s, 6) as usize;
    let mut at = 0;
    for k in 0..string_count(s) {
        if string_word(s, StrNo(k), 0) as usize != at {
            return false;
        }
        at += string_word(s, StrNo(k), 1) as usize;
        if room < at {
            return false;
        }
    }
    at == room
}

fn first_due(b: u8) -> Due
    ensures { result ≡ first b }
{
    // compares in a row, and no match on ranges: its jump table costs more where letters have three bytes
    if b < 128 {
        Due::Nothing
    } else if b < 194 {
        Due::Wrong
    } else if b < 224 {
        Due::One
    } else if b < 225 {
        Due::AfterE0
    } else if b < 237 {
        Due::Two
    } else if b < 238 {
        Due::AfterEd
    } else if b < 240 {
        Due::Two
    } else if b < 241 {
        Due::AfterF0
    } else if b < 244 {
        Due::Three
    } else if b < 245 {
        Due::AfterF4
    } else {
        Due::Wrong
    }
}

// a byte that follows lies from low to high
fn follow_due(low: u8, high: u8, then: Due, b: u8) -> Due
    ensures { result ≡ follow low high «then» b }
{
    if low <= b && b <= high {
        then
    } else {
        Due::Wrong
    }
}

pub fn next_due(d: Due, b: u8) -> Due
    ensures { result ≡ next d b }
{
    match d {
        Due::Nothing => first_due(b),
        Due::One => follow_due(128, 191, Due::Nothing, b),
        Due::Two => follow_due(128, 191, Due::One, b),
        Due::Three => follow_due(128, 191, Due::Two, b),
        Due::AfterE0 => follow_due(160, 191, Due::One, b),
        Due::AfterEd => follow_due(128, 159, Due::One, b),
        Due::AfterF0 => follow_due(144, 191, Due::Two, b),
        Due::AfterF4 => follow_due(128, 143, Due::Two, b),
        Due::Wrong => Due::Wrong,
    }
}

pub fn is_ended(d: Due) -> bool
    ensures { ◌≡◌ {A = Bool} result (ended d) }
{
    matches!(d, Due::Nothing)
}

// byte i is there and lies from low to high
fn lies(t: &[u8], i: usize, low: u8, high: u8) -> bool
    ensures { ◌≡◌ {A = Bool} result (lies_at t.now i low high) }
{
    i < t.len() && low <= t[i] && t[i] <= high
}

// two bytes follow from i on, the first of them from low to high
fn two_follow(t: &[u8], i: usize, low: u8, high: u8) -> bool
    requires { i ≤ length t.now }
    ensures { ◌≡◌ {A = Bool} result (two_follow t.now i low high) }
{
    lies(t, i, low, high) && lies(t, i + 1, 128, 191)
}

fn three_follow(t: &[u8], i: usize, low: u8, high: u8) -> bool
    requires { i ≤ length t.now }
    ensures { ◌≡◌ {A = Bool} result (three_follow t.now i low high) }
{
    lies(t, i, low, high) && two_follow(t, i + 1, 128, 191)
}

// how many bytes there are of a letter that is so long; 0 where it does not go on so
fn sized(whole: bool, n: usize) -> usize
    ensures { result ≡ choose whole n 0 }
{
    if whole { n } else { 0 }
}

// how many bytes the letter at i has, 0 for none
fn letter_size(t: &[u8], i: usize) -> usize
    requires { i < length t.now }
    ensures { LetterAt t.now i result }
{
    let d = first_due(t[i]);
    match d {
        Due::Nothing => 1,
        Due::One => sized(lies(t, i + 1, 128, 191), 2),
        Due::Two => sized(two_follow(t, i + 1, 128, 191), 3),
        Due::Three => sized(three_follow(t, i + 1, 128, 191), 4),
        Due::AfterE0 => sized(two_follow(t, i + 1, 160, 191), 3),
        Due::AfterEd => sized(two_follow(t, i + 1, 128, 159), 3),
        Due::AfterF0 => sized(three_follow(t, i + 1, 144, 191), 4),
        Due::AfterF4 => sized(three_follow(t, i + 1, 128, 143), 4),
        Due::Wrong => 0,
    }
}

// letter by letter
fn are_letters(t: &[u8]) -> bool
    ensures { ◌≡◌ {A = Bool} result (utf8 Due.Nothing t.now) }
{
    let mut i = 0;
    // a while: a letter has one to four bytes
    while i < t.len() {
        let n = letter_size(t, i);
        if n == 0 {
            return false;
        }
        i += n;
    }
    true
}

// the greatest byte, many at once
fn greatest_byte(t: &[u8]) -> u8
    ensures { result ≡ greatest (length t.now) (λ i. get_or t.now i 0) }
{
    let mut top = 0u8;
    for b in t {
        top = top.max(*b);
    }
    top
}

fn is_utf8(t: &[u8]) -> bool
    ensures { ◌≡◌ {A = Bool} result (utf8 Due.Nothing t.now) }
{
    greatest_byte(t) < 128 || are_letters(t)
}

fn check_utf8(s: &[u8]) -> bool
    requires s_value { bodies s.now ≡ true }
    requires s_value_2 { end_to_end s.now ≡ true }
    ensures { ◌≡◌ {A = Bool} result (all_below (strings s.now) (utf8_rule s.now)) }
{
    (0..string_count(s)).all(|k| is_utf8(text_of(s, StrNo(k))))
}

// byte by byte
fn bytes_before(x: &[u8], y: &[u8]) -> bool
    ensures { ◌≡◌ {A = Bool} result (before x.now y.now) }
{
    for (p, q) in x.iter().zip(y) {
        if p != q {
            return p < q;
        }
    }
    x.len() < y.len()
}

// eight bytes as one number, the first the highest
fn eight_at(s: &[u8], i: usize) -> u64
    requires { i + 8 ≤ length s.now }
    ensures { Eight s.now i result }
{
    u64::from_be_bytes([
        s[i],
        s[i + 1],
        s[i + 2],
        s[i + 3],
        s[i + 4],
        s[i + 5],
        s[i + 6],
        s[i + 7],
    ])
}

// in byte order? eight bytes at a time: the last eight may have been compared in part before
pub fn is_before(x: &[u8], y: &[u8]) -> bool
    ensures { ◌≡◌ {A = Bool} result (before x.now y.now) }
{
    let n = x.len().min(y.len());
    if n < 8 {
        return bytes_before(x, y);
    }
    let mut i = 0;
    // a while: the last turn goes back to the last eight bytes, and std's order is slower on short texts
    while i < n {
        let at = i.min(n - 8);
        let a = eight_at(x, at);
        let b = eight_at(y, at);
        if a != b {
            return a < b;
        }
        i = at + 8;
    }
    x.len() < y.len() // the same up to the shorter one's end
}

// string k comes after the one before it
fn order_rule(s: &[u8], k: u32) -> bool
    requires s_value { bodies s.now ≡ true }
    requires s_value_2 { end_to_end s.now ≡ true }
    ensures { ◌≡◌ {A = Bool} result (order_rule s.now k) }
{
    k == 0 || is_before(text_of(s, StrNo(k - 1)), text_of(s, StrNo(k)))
}

fn check_order(s: &[u8]) -> bool
    requires s_value { bodies s.now ≡ true }
    requires s_value_2 { end_to_end s.now ≡ true }
    ensures { ◌≡◌ {A = Bool} result (all_below (strings s.now) (order_rule s.now)) }
{
    (0..string_count(s)).all(|k| order_rule(s, k))
}

pub fn check_strings(s: &[u8]) -> bool
    requires { bodies s.now ≡ true }
    ensures { ◌≡◌ {A = Bool} result (string_rules s.now) }
{
    end_to_end(s) && check_utf8(s) && check_order(s)
}

// ---- what later rules ask: strings in which a byte does not occur

// all bytes are read, many at once
fn is_free(b: u8, t: &[u8]) -> bool
    ensures { ◌≡◌ {A = Bool} result (free b t.now) }
{
    let mut none = true;
    for x in t {
        none &= *x != b;
    }
    none
}

// which strings hold no byte b
pub fn free_strings(s: &[u8], b: u8) -> [bool; 16384]
    requires s_value { bodies s.now ≡ true }
    requires s_value_2 { mosts s.now ≡ true }
    requires s_value_3 { end_to_end s.now ≡ true }
    ensures { Filled false (λ n. free b (text s.now n)) result (strings s.now) }
{
    let mut out = [false; 16384];
    for k in 0..string_count(s) {
        out[k as usize] = is_free(b, text_of(s, StrNo(k)));
    }
    out
}
