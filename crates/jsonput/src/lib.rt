// A case's points as a JSON log, written into a slice.

#![tactic(auto)]

ghost use Rattle.std.specs.Prelude.{[], ◌∷◌, ◌++◌, ◌+◌, ◌/◌, ◌<◌, ◌≤◌, min, ◌≡◌, Bool, length, get_or, eqb};
ghost use Rattle.meaning.specs.Tests.{◌or◌};
ghost use Rattle.std.proofs.Common.{to_z};
ghost use Rattle.std.specs.Int.{w64};
ghost use Rattle.meaning.specs.Case.{values, text, member_word};
ghost use Rattle.meaning.specs.Check.{Checked};
ghost use Rattle.laws.specs.Tests.{Filled};
ghost use Rattle.jsontext.specs.Values.{Truth, EntityOf, Decimal};
ghost use Rattle.jsontrace.specs.Text.{hex_byte, escaped_byte, escaped, quoted, natural, integer, shown};
ghost use Rattle.jsonput.specs.Put.{Put};
ghost use Rattle.jsonput.specs.Runs.{comma};
ghost use Rattle.jsonput.specs.Values.{Read, value_text, text_from, name_text, item_text, opening, closing, typed, with_id};

use encode::copy_at;
use meaning::{StrNo, ValNo};
use stringcheck::value_count;
use tables::{halves, member_word, text_of, value_word};

// ---- bytes and pieces: where the next goes

pub fn put_byte(out: &mut [u8], at: usize, b: u8) -> usize
    requires { at < length out.old }
    ensures { Put out.old out.new at (b ∷ []) result }
{
    out[at] = b;
    at + 1
}

pub fn put_piece(out: &mut [u8], at: usize, piece: &[u8]) -> usize
    requires { at + length piece.now ≤ length out.old }
    ensures { Put out.old out.new at piece.now result }
{
    copy_at(out, at, piece);
    at + piece.len()
}

// ---- strings

fn hex_byte(d: u8) -> u8
    requires { d < 16 }
    ensures { result ≡ hex_byte d }
{
    if d < 10 { b'0' + d } else { b'a' + (d - 10) }
}

// \u00 and the first digit
fn put_high(out: &mut [u8], at: usize, c: u8) -> usize
    requires { at + 5 ≤ length out.old }
    ensures { Put out.old out.new at (92 ∷ 117 ∷ 48 ∷ 48 ∷ hex_byte (c / 16) ∷ []) result }
{
    let high = put_piece(out, at, b"\\u00");
    put_byte(out, high, hex_byte(c / 16))
}

fn put_control(out: &mut [u8], at: usize, c: u8) -> usize
    requires c_bound { c < 32 }
    requires c_in_bounds { at + length (escaped_byte c) ≤ length out.old }
    ensures { Put out.old out.new at (escaped_byte c) result }
{
    let low = put_high(out, at, c);
    put_byte(out, low, hex_byte(c % 16))
}

// a quotation mark or a backslash, which stand in a string after a backslash
pub fn is_marked(c: u8) -> bool
    ensures { ◌≡◌ {A = Bool} result (eqb c 34 or eqb c 92) }
{
    c == b'"' || c == b'\\'
}

fn put_escaped_byte(out: &mut [u8], at: usize, c: u8) -> usize
    requires { at + length (escaped_byte c) ≤ length out.old }
    ensures { Put out.old out.new at (escaped_byte c) result }
{
    if c < 32 {
        return put_control(out, at, c);
    }
    if is_marked(c) {
        let next = put_byte(out, at, b'\\');
        return put_byte(out, next, c);
    }
    put_byte(out, at, c)
}

fn put_escaped(out: &mut [u8], at: usize, t: &[u8]) -> usize
    requires { at + length (escaped t.now) ≤ length out.old }
    ensures { Put out.old out.new at (escaped t.now) result }
{
    let mut next = at;
    for &c in t {
        next = put_escaped_byte(out, next, c);
    }
    next
}

// all but the last quotation mark
fn put_opened(out: &mut [u8], at: usize, t: &[u8]) -> usize
    requires { at + length (34 ∷ escaped t.now) ≤ length out.old }
    ensures { Put out.old out.new at (34 ∷ escaped t.now) result }
{
    let first = put_byte(out, at, b'"');
    put_escaped(out, first, t)
}

fn put_quoted(out: &mut [u8], at: usize, t: &[u8]) -> usize
    requires { at + length (quoted t.now) ≤ length out.old }
    ensures { Put out.old out.new at (quoted t.now) result }
{
    let last = put_opened(out, at, t);
    put_byte(out, last, b'"')
}

// ---- integers

fn digit_byte(d: u64) -> u8
    requires { d < 10 }
    ensures { result ≡ 48 + d }
{
    b'0' + d as u8
}

// the higher digits first: at most 20 calls deep
fn put_natural(out: &mut [u8], at: usize, n: u64) -> usize
    requires { at + length (natural n) ≤ length out.old }
    ensures { Put out.old out.new at (natural n) result }
{
    if n < 10 {
        return put_byte(out, at, digit_byte(n));
    }
    let last = put_natural(out, at, n / 10);
    put_byte(out, last, digit_byte(n % 10))
}

// a signed number by its bits
pub fn put_integer(out: &mut [u8], at: usize, bits: u64) -> usize
    requires { at + length (integer (to_z w64 bits)) ≤ length out.old }
    ensures { Put out.old out.new at (integer (to_z w64 bits)) result }
{
    let n = bits.cast_signed();
    if n < 0 {
        let first = put_byte(out, at, b'-');
        return put_natural(out, first, n.unsigned_abs());
    }
    put_natural(out, at, n.unsigned_abs())
}

// ---- strings of the case

pub fn put_string(s: &[u8], n: StrNo, out: &mut [u8], at: usize) -> usize
    requires checked { Checked s.now }
    requires n_in_bounds { at + length (quoted (text s.now n.0)) ≤ length out.old }
    ensures { Put out.old out.new at (quoted (text s.now n.0)) result }
{
    put_quoted(out, at, text_of(s, n))
}

// a piece, then a string
pub fn put_after(s: &[u8], piece: &[u8], n: StrNo, out: &mut [u8], at: usize) -> usize
    requires checked { Checked s.now }
    requires n_in_bounds { at + length (piece.now ++ quoted (text s.now n.0)) ≤ length out.old }
    ensures { Put out.old out.new at (piece.now ++ quoted (text s.now n.0)) result }
{
    let next = put_piece(out, at, piece);
    put_string(s, n, out, next)
}

// ---- values that hold no others

fn put_truth(out: &mut [u8], at: usize, b: u32) -> usize
    requires { at + length (shown (Truth (eqb b 1))) ≤ length out.old }
    ensures { Put out.old out.new at (shown (Truth (eqb b 1))) result }
{
    if b == 1 {
        put_piece(out, at, b"true")
    } else {
        put_piece(out, at, b"false")
    }
}

fn put_decimal(s: &[u8], t: StrNo, out: &mut [u8], at: usize) -> usize
    requires checked { Checked s.now }
    requires t_in_bounds { at + length (shown (Decimal (text s.now t.0))) ≤ length out.old }
    ensures { Put out.old out.new at (shown (Decimal (text s.now t.0))) result }
{
    let next = put_after(s, b"{\"__extn\":{\"fn\":\"decimal\",\"arg\":", t, out, at);
    put_piece(out, next, b"}}")
}

fn put_identity(s: &[u8], t: StrNo, i: StrNo, out: &mut [u8], at: usize) -> usize
    requires checked { Checked s.now }
    requires i_in_bounds { at + length (typed ++ quoted (text s.now t.0)) + length (with_id ++ quoted (text s.now i.0)) ≤ length out.old }
    ensures { Put out.old out.new at ((typed ++ quoted (text s.now t.0)) ++ (with_id ++ quoted (text s.now i.0))) result }
{
    let next = put_after(s, b"{\"__entity\":{\"type\":", t, out, at);
    put_after(s, b",\"id\":", i, out, next)
}

fn put_entity(s: &[u8], t: StrNo, i: StrNo, out: &mut [u8], at: usize) -> usize
    requires checked { Checked s.now }
    requires i_in_bounds { at + length (shown (EntityOf (text s.now t.0) (text s.now i.0))) ≤ length out.old }
    ensures { Put out.old out.new at (shown (EntityOf (text s.now t.0) (text s.now i.0))) result }
{
    let next = put_identity(s, t, i, out, at);
    put_piece(out, next, b"}}")
}

// from its kind and its words; a number in a match, since the kind is a word of the case file, read here alone
fn put_leaf(s: &[u8], kind: u32, a: u32, b: u32, out: &mut [u8], at: usize) -> usize
    requires checked { Checked s.now }
    requires kind_bound { kind < 6 }
    requires b_in_bounds { at + length (text_from s.now kind a b) ≤ length out.old }
    ensures { Put out.old out.new at (text_from s.now kind a b) result }
{
    match kind {
        0 => put_piece(out, at, b"null"),
        1 => put_truth(out, at, a),
        2 => put_integer(out, at, halves(a, b)),
        3 => put_decimal(s, StrNo(a), out, at),
        4 => put_string(s, StrNo(a), out, at),
        _ => put_entity(s, StrNo(a), StrNo(b), out, at),
    }
}

// ---- arrays and objects

pub fn put_comma(out: &mut [u8], at: usize, i: u32) -> usize
    requires { at + length (comma i) ≤ length out.old }
    ensures { Put out.old out.new at (comma i) result }
{
    if i == 0 { at } else { put_byte(out, at, b',') }
}

// a member's name with its colon; an array's item has none
fn put_name(s: &[u8], kind: u32, m: usize, out: &mut [u8], at: usize) -> usize
    requires checked { Checked s.now }
    requires m_in_bounds { at + length (name_text s.now kind m) ≤ length out.old }
    ensures { Put out.old out.new at (name_text s.now kind m) result }
{
    if kind != 7 {
        return at;
    }
    let next = put_string(s, StrNo(member_word(s, m, 0)), out, at);
    put_byte(out, next, b':')
}

// what comes before the value of item i
fn put_lead(s: &[u8], kind: u32, first: u32, i: u32, out: &mut [u8], at: usize) -> usize
    requires checked { Checked s.now }
    requires i_in_bounds { at + length (comma i ++ name_text s.now kind (first + i)) ≤ length out.old }
    ensures { Put out.old out.new at (comma i ++ name_text s.now kind (first + i)) result }
{
    let next = put_comma(out, at, i);
    put_name(s, kind, place(first, i), out, next)
}

fn put_open(out: &mut [u8], at: usize, kind: u32) -> usize
    requires { at < length out.old }
    ensures { Put out.old out.new at (opening kind ∷ []) result }
{
    put_byte(out, at, opening_byte(kind))
}

fn put_close(out: &mut [u8], at: usize, kind: u32) -> usize
    requires { at < length out.old }
    ensures { Put out.old out.new at (closing kind ∷ []) result }
{
    put_byte(out, at, closing_byte(kind))
}

fn opening_byte(kind: u32) -> u8
    ensures { result ≡ opening kind }
{
    if kind == 7 { b'{' } else { b'[' }
}

fn closing_byte(kind: u32) -> u8
    ensures { result ≡ closing kind }
{
    if kind == 7 { b'}' } else { b']' }
}

fn place(first: u32, i: u32) -> usize
    ensures { result ≡ first + i }
{
    first as usize + i as usize
}

// the value of item i of a run
fn held_by(s: &[u8], first: u32, i: u32) -> ValNo
    requires { Checked s.now }
    ensures { result.0 ≡ member_word s.now (first + i) 1 }
{
    ValNo(member_word(s, place(first, i), 1))
}

// a value's words
#[derive(Clone, Copy)]
pub struct Words {
    pub kind: u32,
    pub first: u32,
    pub items: u32,
}

pub fn words_of(s: &[u8], v: ValNo) -> Words
    requires { Checked s.now }
    ensures { Read s.now v.0 result.kind result.first result.items }
{
    Words {
        kind: value_word(s, v, 0),
        first: value_word(s, v, 1),
        items: value_word(s, v, 2),
    }
}

// item i of a run: what comes before it, then its value
#[cycle(put_item_put_value)]
fn put_item(s: &[u8], kind: u32, first: u32, i: u32, v: ValNo, out: &mut [u8], at: usize) -> usize
    requires checked { Checked s.now }
    requires v_value { v.0 ≡ member_word s.now (first + i) 1 }
    requires i_in_bounds { at + length (comma i ++ item_text s.now kind (first + i)) ≤ length out.old }
    ensures { Put out.old out.new at (comma i ++ item_text s.now kind (first + i)) result }
{
    let from = put_lead(s, kind, first, i, out, at);
    put_value(s, v, out, from)
}

// what a value holds has lower numbers, so v falls: at most 32 calls deep
#[cycle(put_item_put_value)]
pub fn put_value(s: &[u8], v: ValNo, out: &mut [u8], at: usize) -> usize
    requires checked { Checked s.now }
    requires v_in_bounds { at + length (value_text s.now v.0) ≤ length out.old }
    ensures { Put out.old out.new at (value_text s.now v.0) result }
{
    let h = words_of(s, v);
    if h.kind < 6 {
        return put_leaf(s, h.kind, h.first, h.items, out, at);
    }
    let mut next = put_open(out, at, h.kind);
    for i in 0..h.items {
        next = put_item(s, h.kind, h.first, i, held_by(s, h.first, i), out, next);
    }
    put_close(out, next, h.kind)
}
