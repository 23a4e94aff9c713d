// Where a text may stand already: what is told is checked, so nothing rests on it but that it ends.
ghost use Rattle.std.specs.Prelude.{◌≡◌, ◌+◌, ◌<◌, ◌≤◌, true, length};
ghost use Rattle.meaning.specs.Check.{bodies};

use super::guess::{entry_in, put_entry};
use super::text_in;
use meaning::StrNo;

// ---- a number of a text, likely another one for another text

// four bytes as one number, the first the lowest
fn four_at(x: &[u8], i: usize) -> u64
    requires { i + 4 ≤ length x.now }
    ensures { result ≤ u32.MAX }
{
    u64::from(u32::from_le_bytes([x[i], x[i + 1], x[i + 2], x[i + 3]]))
}

fn mixed(h: u64, a: u64, b: u64) -> u64
    requires a_bound { a ≤ u32.MAX }
    requires b_bound { b ≤ u32.MAX }
{
    let p = (h % 4294967296 + a) * 1640531527;
    let q = (h / 4294967296 + b) * 1540483477;
    p.wrapping_add(q.rotate_left(32))
}

fn mixed_bytes(x: &[u8]) -> u64 {
    let mut h = x.len() as u64;
    for byte in x {
        h = mixed(h, u64::from(*byte), 0);
    }
    h
}

// eight bytes at a time: the last eight may have been mixed in part before
fn mixed_eights(x: &[u8], n: usize) -> u64
    requires n_value { n ≡ length x.now }
    requires le_n { 8 ≤ n }
{
    let mut h = n as u64;
    for i in (0..n).step_by(8) {
        let at = i.min(n - 8);
        h = mixed(h, four_at(x, at), four_at(x, at + 4));
    }
    h
}

// of the last 256 bytes
fn mixed_text(text: &[u8]) -> u64 {
    let from = text.len() - text.len().min(256);
    let x = &text[from..];
    if x.len() < 8 {
        return mixed_bytes(x);
    }
    mixed_eights(x, x.len())
}

// ---- a table of places, two in an entry: 17 bits of a text's number, and its place among those kept, one more

// the place in half an entry, where it tells this
fn told_in(half: u64, tag: u64) -> Option<usize> {
    let more = half % 32768;
    if half / 32768 == tag && more != 0 {
        Some((more - 1) as usize)
    } else {
        None
    }
}

// the place that is told for a number; where none is, this one is put there and is it
fn place_by(table: &mut [u64; 16384], number: u64, place: usize) -> usize
    requires { place ≤ 16384 }
{
    let g = (number / 4294967296 + number % 4294967296) * 1640531527;
    let tag = g / 1048576 % 131072;
    let own = tag * 32768 + (place as u64) + 1;
    let mut at = (g / 1099511627776 % 16384) as usize;
    for _ in 0..64 {
        let entry = entry_in(table, at);
        let low = entry % 4294967296;
        let high = entry / 4294967296;
        if low == 0 {
            put_entry(table, at, own);
            return place;
        }
        if let Some(told) = told_in(low, tag) {
            return told;
        }
        if high == 0 {
            put_entry(table, at, low + own % 4294967296 * 4294967296);
            return place;
        }
        if let Some(told) = told_in(high, tag) {
            return told;
        }
        at = (at + 1) % 16384;
    }
    place
}

// where string k may stand among the first `many` kept; nowhere, where nothing is told
pub fn likely(s: &[u8], table: &mut [u64; 16384], told: bool, k: u32, many: usize) -> usize
    requires { bodies s.now ≡ true }
{
    if !told || 16384 < many {
        return many;
    }
    place_by(table, mixed_text(text_in(s, StrNo(k))), many)
}

// the first `many` kept are told
pub fn tell_all(s: &[u8], table: &mut [u64; 16384], told: bool, kept: &[u32], many: usize)
    requires { bodies s.now ≡ true }
{
    for i in 0..many {
        likely(s, table, told, entry_in(kept, i), i);
    }
}

// ---- are texts often the same?

// is the text of string k that of an earlier one, a step, two or more before it?
fn is_repeated(s: &[u8], k: u32, step: u32) -> bool
    requires s_value { bodies s.now ≡ true }
    requires k_bound { k ≤ 16384 }
    requires step_nonzero { 0 < step }
    requires step_bound { step ≤ 16384 }
{
    for j in (0..k).step_by(step as usize) {
        if text_in(s, StrNo(j)) == text_in(s, StrNo(k)) {
            return true;
        }
    }
    false
}

// is one of the strings, a step apart?
fn has_repeated(s: &[u8], n: u32, step: u32) -> bool
    requires s_value { bodies s.now ≡ true }
    requires n_bound { n ≤ 16384 }
    requires step_nonzero { 0 < step }
    requires step_bound { step ≤ 16384 }
{
    for k in (0..n).step_by(step as usize) {
        if is_repeated(s, k, step) {
            return true;
        }
    }
    false
}

// where so many rise at the front: is it worth it to tell texts?
pub fn is_often(s: &[u8], n: u32, rise: u32) -> bool
    requires { bodies s.now ≡ true }
{
    rise < n && (16384 < n || 32 <= n && has_repeated(s, n, n / 32))
}
