// The bytes that a string stands for, one after another.
ghost use Rattle.std.specs.Prelude.{◌≡◌, Bool, List, ℕ, ◌+◌, ◌<◌, ◌≤◌, length, drop};
ghost use Rattle.jsonread.specs.Spelling.{Begins, plainly, NextTold, OrderTold, WordTold, Alike, Fitting};

use super::strings::escape_at;
use std::cmp::Ordering;

// where the next byte comes from: the last bytes of a character, so many, then the line
#[derive(Clone, Copy)]
pub struct Cursor {
    pub at: usize,
    pub character: u32,
    pub left: usize,
}

impl Cursor {
    // from a byte of the line on
    pub fn at(at: usize) -> Cursor
        ensures { result ≡ plainly at }
    {
        Cursor {
            at,
            character: 0,
            left: 0,
        }
    }
}

// a character's first byte, with the others left
#[inline(always)]
fn first_byte(u: u32, at: usize) -> (u8, Cursor)
    requires { u < 1114112 }
    ensures { Begins u at result }
{
    if u < 128 {
        return (
            u as u8,
            Cursor {
                at,
                character: u,
                left: 0,
            },
        );
    }
    if u < 2048 {
        return (
            (192 + u / 64) as u8,
            Cursor {
                at,
                character: u,
                left: 1,
            },
        );
    }
    if u < 65536 {
        return (
            (224 + u / 4096) as u8,
            Cursor {
                at,
                character: u,
                left: 2,
            },
        );
    }
    (
        (240 + u / 262144) as u8,
        Cursor {
            at,
            character: u,
            left: 3,
        },
    )
}

// the next byte of a string that was read; in its caller's body, where the cursor stays in registers
#[inline(always)]
pub fn next_byte(line: &[u8], c: Cursor) -> Option<(u8, Cursor)>
    ensures { NextTold line.now c result }
{
    let u = c.character;
    if c.left == 3 {
        return Some(((128 + u / 4096 % 64) as u8, Cursor { left: 2, ..c }));
    }
    if c.left == 2 {
        return Some(((128 + u / 64 % 64) as u8, Cursor { left: 1, ..c }));
    }
    if c.left == 1 {
        return Some(((128 + u % 64) as u8, Cursor { left: 0, ..c }));
    }
    if line.len() <= c.at {
        return None;
    }
    let b = line[c.at];
    if b == b'"' {
        return None;
    }
    if b == b'\\' {
        let Ok((v, e)) = escape_at(line, c.at + 1) else {
            return None;
        };
        return Some(first_byte(v, e));
    }
    Some((b, Cursor::at(c.at + 1)))
}

// how many bytes of two strings are the same and stand for themselves, with the quotation marks
fn same_bytes(line: &[u8], a: usize, b: usize) -> usize
    requires a_in_bounds { a ≤ length line.now }
    requires b_in_bounds { b ≤ length line.now }
    ensures { Alike line.now a b result }
{
    let mut k = 1;
    // a loop: two places move together, and the count is the answer
    loop {
        if line.len() <= a + k || line.len() <= b + k {
            return k;
        }
        let p = line[a + k];
        if p != line[b + k] || p == b'"' || p == b'\\' {
            return k;
        }
        k += 1;
    }
}

// two strings that were read, from so many bytes on, each byte as it is spelt
fn compare_from(line: &[u8], a: usize, b: usize, k: usize) -> Ordering
    requires { Alike line.now a b k }
    ensures { OrderTold line.now a b result }
{
    let mut x = Cursor::at(a + k);
    let mut y = Cursor::at(b + k);
    loop {
        let Some((p, n)) = next_byte(line, x) else {
            return match next_byte(line, y) {
                None => Ordering::Equal,
                Some(_) => Ordering::Less,
            };
        };
        let Some((q, m)) = next_byte(line, y) else {
            return Ordering::Greater;
        };
        if p != q {
            return p.cmp(&q);
        }
        x = n;
        y = m;
    }
}

// two strings that were read, at the byte behind those that are the same
fn compare_here(line: &[u8], a: usize, b: usize, k: usize) -> Ordering
    requires alike { Alike line.now a b k }
    requires k_in_bounds { a + k < length line.now }
    requires k_in_bounds_2 { b + k < length line.now }
    ensures { OrderTold line.now a b result }
{
    let p = line[a + k];
    let q = line[b + k];
    if p == q || p == b'"' || p == b'\\' || q == b'"' || q == b'\\' {
        return compare_from(line, a, b, k);
    }
    p.cmp(&q)
}

// two strings that were read, at their quotation marks
pub fn compare(line: &[u8], a: usize, b: usize) -> Ordering
    requires a_in_bounds { a ≤ length line.now }
    requires b_in_bounds { b ≤ length line.now }
    ensures { OrderTold line.now a b result }
{
    let k = same_bytes(line, a, b);
    if a + k < line.len() && b + k < line.len() {
        return compare_here(line, a, b, k);
    }
    compare_from(line, a, b, k)
}

// how many bytes of a word stand in a string as they are
fn same_word(line: &[u8], at: usize, word: &[u8]) -> usize
    requires { at ≤ length line.now }
    ensures { Fitting line.now at word.now result }
{
    let mut i = 0;
    // a while: two places move together, and the count is the answer
    while i < word.len() {
        if line.len() <= at + 1 + i {
            return i;
        }
        let c = line[at + 1 + i];
        if c != word[i] || c == b'"' || c == b'\\' {
            return i;
        }
        i += 1;
    }
    i
}

// is a string that was read this word, from so many bytes on, each byte as it is spelt?
fn is_word_from(line: &[u8], at: usize, word: &[u8], from: usize) -> bool
    requires { Fitting line.now at word.now from }
    ensures { WordTold line.now at word.now result }
{
    let mut x = Cursor::at(at + 1 + from);
    for i in from..word.len() {
        let Some((b, next)) = next_byte(line, x) else {
            return false;
        };
        if b != word[i] {
            return false;
        }
        x = next;
    }
    next_byte(line, x).is_none()
}

// a string that was read, at its quotation mark, is this word
pub fn is_word(line: &[u8], at: usize, word: &[u8]) -> bool
    requires { at ≤ length line.now }
    ensures { WordTold line.now at word.now result }
{
    let i = same_word(line, at, word);
    if line.len() <= at + 1 + i {
        return is_word_from(line, at, word, i);
    }
    let c = line[at + 1 + i];
    if c == b'\\' {
        return is_word_from(line, at, word, i);
    }
    if word.len() <= i {
        return c == b'"';
    }
    if c == b'"' {
        return false;
    }
    c == word[i] && is_word_from(line, at, word, i)
}
