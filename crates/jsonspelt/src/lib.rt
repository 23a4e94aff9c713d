// The bytes that a good string stands for: how many, where the string ends, and the bytes written.

#![tactic(auto)]

ghost use Rattle.std.specs.Prelude.{◌≡◌, ◌+◌, ◌<◌, ◌≤◌, length};
ghost use Rattle.laws.specs.Writing.{Writing};
ghost use Rattle.jsontext.specs.Strings.{utf8_of};
ghost use Rattle.jsonspelt.specs.Spelt.{SpeltTold, Put, Fits, PutTold};

use jsonread::strings::escape_at;

#[derive(Clone, Copy)]
pub struct Spelt {
    pub bytes: usize,
    pub end: usize,
}

// how many bytes a character has in UTF-8
fn character_bytes(u: u32) -> usize
    ensures { (result ≡ length (utf8_of u)) × (result ≤ 4) }
{
    if u < 128 {
        1
    } else if u < 2048 {
        2
    } else if u < 65536 {
        3
    } else {
        4
    }
}

// a string that begins at `at`
pub fn spelt_at(line: &[u8], at: usize) -> Spelt
    requires { at ≤ length line.now }
    ensures { SpeltTold line.now at result }
{
    let mut bytes = 0;
    let mut i = at + 1;
    // a while: an escape is passed over whole, so the place does not move by one
    while i < line.len() {
        match line[i] {
            b'"' => return Spelt { bytes, end: i + 1 },
            b'\\' => {
                let Ok((u, end)) = escape_at(line, i + 1) else {
                    return Spelt { bytes, end: i };
                };
                bytes += character_bytes(u);
                i = end;
            }
            _ => {
                bytes += 1;
                i += 1;
            }
        }
    }
    Spelt { bytes, end: i }
}

// a character of two bytes
fn put_two(out: &mut [u8], at: usize, u: u32)
    requires le_u { (128 ≤ u) × (u < 2048) }
    requires at_in_bounds { at + 2 ≤ length out.old }
    ensures { Writing out.old out.new at (utf8_of u) }
{
    out[at] = (192 + u / 64) as u8;
    out[at + 1] = (128 + u % 64) as u8;
}

fn put_three(out: &mut [u8], at: usize, u: u32)
    requires le_u { (2048 ≤ u) × (u < 65536) }
    requires at_in_bounds { at + 3 ≤ length out.old }
    ensures { Writing out.old out.new at (utf8_of u) }
{
    out[at] = (224 + u / 4096) as u8;
    out[at + 1] = (128 + u / 64 % 64) as u8;
    out[at + 2] = (128 + u % 64) as u8;
}

fn put_four(out: &mut [u8], at: usize, u: u32)
    requires le_u { (65536 ≤ u) × (u < 1114112) }
    requires at_in_bounds { at + 4 ≤ length out.old }
    ensures { Writing out.old out.new at (utf8_of u) }
{
    out[at] = (240 + u / 262144) as u8;
    out[at + 1] = (128 + u / 4096 % 64) as u8;
    out[at + 2] = (128 + u / 64 % 64) as u8;
    out[at + 3] = (128 + u % 64) as u8;
}

// a character in UTF-8, from a place on: where the next goes
fn put_character(out: &mut [u8], at: usize, u: u32) -> usize
    requires u_bound { u < 1114112 }
    requires u_in_bounds { at + length (utf8_of u) ≤ length out.old }
    ensures { Put out.old out.new at (utf8_of u) result }
{
    if u < 128 {
        out[at] = u as u8;
        at + 1
    } else if u < 2048 {
        put_two(out, at, u);
        at + 2
    } else if u < 65536 {
        put_three(out, at, u);
        at + 3
    } else {
        put_four(out, at, u);
        at + 4
    }
}

// a string's bytes go to a place
pub fn put_spelt(line: &[u8], at: usize, out: &mut [u8], to: usize) -> Spelt
    requires { Fits line.now at to out.old }
    ensures { PutTold line.now at out.old out.new to result }
{
    let mut k = to;
    let mut i = at + 1;
    // a while: an escape is passed over whole, so neither place moves by one
    while i < line.len() {
        match line[i] {
            b'"' => return Spelt {
                bytes: k - to,
                end: i + 1,
            },
            b'\\' => {
                let Ok((u, end)) = escape_at(line, i + 1) else {
                    return Spelt {
                        bytes: k - to,
                        end: i,
                    };
                };
                k = put_character(out, k, u);
                i = end;
            }
            c => {
                out[k] = c;
                k += 1;
                i += 1;
            }
        }
    }
    Spelt {
        bytes: k - to,
        end: i,
    }
}
