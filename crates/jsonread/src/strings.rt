// Strings: where one ends, or what is wrong in it.
ghost use Rattle.std.specs.Prelude.{◌≡◌, Bool, true, false, ◌<◌, ◌≤◌, ◌+◌, ◌*◌, ◌-◌, suc, length, drop, ltb};
ghost use Rattle.meaning.specs.Tests.{only_if};
ghost use Rattle.jsontext.specs.Strings.{hex_digit, is_high, is_low, low_unit, low_half, simple, character, escape, is_wrong, chars, string};
ghost use Rattle.jsonread.specs.Told.{Told, HexTold, LowTold, CharTold, mark_of};

use super::bytes::want_at;
use jsontext::{Bad, Fault};
use meaning::Due;
use stringcheck::{is_ended, next_due};

// what a byte of a string is
#[derive(Clone, Copy)]
pub enum Mark {
    Quote,
    Backslash,
    Control,
    Byte,
}

// a hex digit's value; 16 for what is none, as the proof of four of them goes by a bound on a number
fn hex_digit(c: u8) -> u32
    ensures { hex_digit c ≡ only_if (ltb result 16) result }
{
    if c < b'0' {
        return 16;
    }
    if c <= b'9' {
        return (c - 48) as u32;
    }
    if c < 65 {
        return 16;
    }
    if c <= 70 {
        return (c - 55) as u32;
    }
    if c < 97 {
        return 16;
    }
    if c <= 102 {
        return (c - 87) as u32;
    }
    16
}

// four hex digits, or where one is missing
fn hex4(line: &[u8], at: usize) -> Result<u32, Bad>
    requires { at ≤ length line.now }
    ensures { HexTold line.now at result }
{
    let mut n: u32 = 0;
    let mut left: usize = 4;
    let mut i = at;
    while 0 < left {
        if line.len() <= i {
            return Err(Bad::new(Fault::NotJson, i));
        }
        let d = hex_digit(line[i]);
        if 16 <= d {
            return Err(Bad::new(Fault::NotJson, i));
        }
        n = 16 * n + d;
        i += 1;
        left -= 1;
    }
    Ok(n)
}

fn is_high(u: u32) -> bool
    ensures { ◌≡◌ {A = Bool} result (is_high u) }
{
    55296 <= u && u <= 56319
}

fn is_low(u: u32) -> bool
    ensures { ◌≡◌ {A = Bool} result (is_low u) }
{
    56320 <= u && u <= 57343
}

// four hex digits of a low half
fn low_unit(line: &[u8], at: usize) -> Result<u32, Bad>
    requires { at ≤ length line.now }
    ensures { LowTold line.now (at + 4) result (low_unit (drop at line.now)) }
{
    let low = hex4(line, at)?;
    if is_low(low) {
        Ok(low)
    } else {
        Err(Bad::new(Fault::NotJson, at + 4))
    }
}

// an escaped low half, with its backslash
fn low_half(line: &[u8], at: usize) -> Result<u32, Bad>
    requires { at ≤ length line.now }
    ensures { LowTold line.now (at + 6) result (low_half (drop at line.now)) }
{
    if line.len() <= at {
        return Err(Bad::new(Fault::NotJson, at));
    }
    if line[at] != b'\\' {
        return Err(Bad::new(Fault::NotJson, at));
    }
    if line.len() <= at + 1 {
        return Err(Bad::new(Fault::NotJson, at + 1));
    }
    if line[at + 1] != b'u' {
        return Err(Bad::new(Fault::NotJson, at + 1));
    }
    low_unit(line, at + 2)
}

// a character of two halves
fn joined(high: u32, low: u32) -> u32
    requires le_high { 55296 ≤ high }
    requires high_bound { high ≤ 56319 }
    requires le_low { 56320 ≤ low }
    requires low_bound { low ≤ 57343 }
    ensures { result ≡ 65536 + (high - 55296) * 1024 + (low - 56320) }
{
    65536 + (high - 55296) * 1024 + (low - 56320)
}

// after four hex digits that say u, whose backslash stands at `slash`: the character and where it ends
fn character_at(line: &[u8], slash: usize, u: u32, at: usize) -> Result<(u32, usize), Bad>
    requires slash_le_at { slash ≤ at }
    requires at_in_bounds { at ≤ length line.now }
    requires u_bound { u < 65536 }
    ensures { CharTold line.now at result (character (length line.now - slash) u (drop at line.now)) }
{
    if is_low(u) {
        return Err(Bad::new(Fault::NotJson, slash));
    }
    if !is_high(u) {
        return Ok((u, at));
    }
    let Ok(low) = low_half(line, at) else {
        return Err(Bad::new(Fault::NotJson, slash));
    };
    Ok((joined(u, low), at + 6))
}

// what a byte after a backslash stands for; 128 for nothing, no Option: the contract tells it of a number below 128
fn simple_of(c: u8) -> u32
    ensures { simple c ≡ only_if (ltb result 128) result }
{
    match c {
        b'"' => 34,
        b'\\' => 92,
        b'/' => 47,
        b'b' => 8,
        b'f' => 12,
        b'n' => 10,
        b'r' => 13,
        b't' => 9,
        _ => 128,
    }
}

// after a backslash: the character that an escape stands for and where it ends, or where it is wrong
pub fn escape_at(line: &[u8], at: usize) -> Result<(u32, usize), Bad>
    requires at_nonzero { 0 < at }
    requires at_in_bounds { at ≤ length line.now }
    ensures { CharTold line.now (at + 1) result (escape (drop at line.now)) }
{
    if line.len() <= at {
        return Err(Bad::new(Fault::NotJson, at));
    }
    if line[at] != b'u' {
        let b = simple_of(line[at]);
        if 128 <= b {
            return Err(Bad::new(Fault::NotJson, at));
        }
        return Ok((b, at + 1));
    }
    let u = hex4(line, at + 1)?;
    character_at(line, at - 1, u, at + 5)
}

fn is_wrong(d: Due) -> bool
    ensures { ◌≡◌ {A = Bool} result (is_wrong d) }
{
    match d {
        Due::Nothing => false,
        Due::One => false,
        Due::Two => false,
        Due::Three => false,
        Due::AfterE0 => false,
        Due::AfterEd => false,
        Due::AfterF0 => false,
        Due::AfterF4 => false,
        Due::Wrong => true,
    }
}

fn mark_of(d: Due, c: u8) -> Mark
    ensures { result ≡ mark_of d c }
{
    if !is_ended(d) {
        return Mark::Byte;
    }
    if c == b'"' {
        return Mark::Quote;
    }
    if c == b'\\' {
        return Mark::Backslash;
    }
    if c < 32 {
        return Mark::Control;
    }
    Mark::Byte
}

// after the quotation mark
fn chars_at(line: &[u8], at: usize) -> Result<usize, Bad>
    requires { at ≤ length line.now }
    ensures { Told line.now at result (chars (suc (length (drop at line.now))) Due.Nothing (drop at line.now)) }
{
    let mut d = Due::Nothing;
    let mut i = at;
    // a while: an escape moves on by more than a byte
    while i < line.len() {
        let c = line[i];
        match mark_of(d, c) {
            Mark::Quote => return Ok(i + 1),
            Mark::Control => return Err(Bad::new(Fault::NotJson, i)),
            Mark::Backslash => {
                let (_, next) = escape_at(line, i + 1)?;
                i = next;
            }
            Mark::Byte => {
                let e = next_due(d, c);
                if is_wrong(e) {
                    return Err(Bad::new(Fault::NotJson, i));
                }
                d = e;
                i += 1;
            }
        }
    }
    Err(Bad::new(Fault::NotJson, i))
}

pub fn string_at(line: &[u8], at: usize) -> Result<usize, Bad>
    requires { at ≤ length line.now }
    ensures { Told line.now at result (string (drop at line.now)) }
{
    let i = want_at(line, at, b'"')?;
    chars_at(line, i)
}
