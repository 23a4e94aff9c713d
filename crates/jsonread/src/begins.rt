// What a value's first byte says, and values that are told by it.
ghost use Rattle.std.specs.Prelude.{◌≡◌, Bool, ◌≤◌, length, drop};
ghost use Rattle.meaning.specs.Tests.{choose};
ghost use Rattle.jsontext.specs.Numbers.{number};
ghost use Rattle.jsontext.specs.Values.{numeral, begins, due, text, J, spelt};
ghost use Rattle.jsontext.specs.Events.{comma, closing};
ghost use Rattle.jsonread.specs.Told.{Told};

use super::bytes::want_at;
use super::integers::number_at;
use super::strings::string_at;
use jsontext::{Bad, Fault};

pub fn is_numeral(c: u8) -> bool
    ensures { ◌≡◌ {A = Bool} result (numeral c) }
{
    c == b'-' || b'0' <= c && c <= b'9'
}

fn is_first(c: u8) -> bool
    ensures { ◌≡◌ {A = Bool} result (begins c) }
{
    match c {
        b'{' => true,
        b'[' => true,
        b'"' => true,
        b't' => true,
        b'f' => true,
        b'n' => true,
        _ => is_numeral(c),
    }
}

// what is wrong with a byte where a value of another sort is due: w, or that it begins none
pub fn instead(c: u8, w: Fault) -> Fault
    ensures { result ≡ choose (begins c) w Fault.NotJson }
{
    if is_first(c) { w } else { Fault::NotJson }
}

// a string, and nothing else
pub fn text_at(line: &[u8], at: usize) -> Result<usize, Bad>
    requires { at ≤ length line.now }
    ensures { Told line.now at result (text (drop at line.now)) }
{
    if line.len() <= at {
        return Err(Bad::new(Fault::NotJson, at));
    }
    let c = line[at];
    if c == b'"' {
        return string_at(line, at);
    }
    Err(Bad::new(instead(c, Fault::BadField), at))
}

// a number, and nothing else
pub fn time_at(line: &[u8], at: usize) -> Result<usize, Bad>
    requires { at ≤ length line.now }
    ensures { Told line.now at result (due Fault.BadField numeral number (drop at line.now)) }
{
    if line.len() <= at {
        return Err(Bad::new(Fault::NotJson, at));
    }
    let c = line[at];
    if is_numeral(c) {
        return number_at(line, at);
    }
    Err(Bad::new(instead(c, Fault::BadField), at))
}

// a word that must stand here, whatever value it spells
pub fn word_at(line: &[u8], at: usize, word: &[u8]) -> Result<usize, Bad>
    requires { at ≤ length line.now }
    ensures { (j : J) → Told line.now at result (spelt word.now j (drop at line.now)) }
{
    let mut k = at;
    for b in word {
        k = want_at(line, k, *b)?;
    }
    Ok(k)
}

// a comma between an entity's items, or 23 at its bracket
pub fn comma_at(line: &[u8], at: usize) -> Result<usize, Bad>
    requires { at ≤ length line.now }
    ensures { Told line.now at result (comma (drop at line.now)) }
{
    if line.len() <= at {
        return Err(Bad::new(Fault::NotJson, at));
    }
    if line[at] == b']' {
        return Err(Bad::new(Fault::BadField, at));
    }
    want_at(line, at, b',')
}

// an entity's bracket, or 23 at the comma before a fourth item
pub fn closing_at(line: &[u8], at: usize) -> Result<usize, Bad>
    requires { at ≤ length line.now }
    ensures { Told line.now at result (closing (drop at line.now)) }
{
    if line.len() <= at {
        return Err(Bad::new(Fault::NotJson, at));
    }
    if line[at] == b',' {
        return Err(Bad::new(Fault::BadField, at));
    }
    want_at(line, at, b']')
}
