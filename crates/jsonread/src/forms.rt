// The look ahead that tells whether an object has one member (J15).
ghost use Rattle.std.specs.Prelude.{◌≡◌, Bool, ◌<◌, ◌≤◌, length, drop};
ghost use Rattle.jsontext.specs.Reading.{blanks};
ghost use Rattle.jsontext.specs.Values.{closes_first, form};
ghost use Rattle.jsonread.specs.Ahead.{sign_of, inside_after, NamedTold, only_form};

use super::bytes::skip_blanks;
use super::names::is_word;
use super::strings::string_at;
use jsontext::{Form, Side};

// what a byte outside all strings is
#[derive(Clone, Copy)]
pub enum Sign {
    Quotes,
    Opens,
    Closes,
    Comma,
    Other,
}

fn sign_of(c: u8) -> Sign
    ensures { result ≡ sign_of c }
{
    if c == b'"' {
        return Sign::Quotes;
    }
    if c == b'{' {
        return Sign::Opens;
    }
    if c == b'[' {
        return Sign::Opens;
    }
    if c == b'}' {
        return Sign::Closes;
    }
    if c == b']' {
        return Sign::Closes;
    }
    if c == b',' {
        return Sign::Comma;
    }
    Sign::Other
}

fn inside_after(c: u8) -> Side
    ensures { result ≡ inside_after c }
{
    if c == b'"' {
        return Side::Outside;
    }
    if c == b'\\' {
        return Side::Escaped;
    }
    Side::Inside
}

// is the first comma or closing bracket outside all strings and brackets a closing brace?
pub fn closes_first(line: &[u8], at: usize) -> bool
    requires { at ≤ length line.now }
    ensures { ◌≡◌ {A = Bool} result (closes_first Side.Outside 0 (drop at line.now)) }
{
    let mut side = Side::Outside;
    let mut depth: usize = 0;
    let mut i = at;
    // a while: the brackets that are open bound the places passed, which a for says no plainer
    while i < line.len() {
        let c = line[i];
        match side {
            Side::Escaped => {
                side = Side::Inside;
                i += 1;
            }
            Side::Inside => {
                side = inside_after(c);
                i += 1;
            }
            Side::Outside => match sign_of(c) {
                Sign::Quotes => {
                    side = Side::Inside;
                    i += 1;
                }
                Sign::Opens => {
                    depth += 1;
                    i += 1;
                }
                Sign::Closes => {
                    if depth == 0 {
                        return c == b'}';
                    }
                    depth -= 1;
                    i += 1;
                }
                Sign::Comma => {
                    if depth == 0 {
                        return false;
                    }
                    i += 1;
                }
                Sign::Other => {
                    i += 1;
                }
            },
        }
    }
    false
}

// the form that a first name names, where it was read
fn form_named(line: &[u8], at: usize) -> Form
    requires { at ≤ length line.now }
    ensures { NamedTold line.now at result }
{
    if is_word(line, at, b"__entity") {
        return Form::Entity;
    }
    if is_word(line, at, b"__extn") {
        return Form::Extension;
    }
    Form::Plain
}

// a form's name was read up to `end`: it is the object's only one, if a colon follows and the object closes after its value
fn only_form(line: &[u8], end: usize, named: Form) -> Form
    requires { end ≤ length line.now }
    ensures { result ≡ only_form named (blanks (drop end line.now)) }
{
    let colon = skip_blanks(line, end);
    if line.len() <= colon {
        return Form::Plain;
    }
    if line[colon] != b':' {
        return Form::Plain;
    }
    if !closes_first(line, colon + 1) {
        return Form::Plain;
    }
    named
}

// what an object is read as, after its brace; its name is asked before the look ahead
pub fn form_at(line: &[u8], at: usize) -> Form
    requires { at ≤ length line.now }
    ensures { result ≡ form (drop at line.now) }
{
    let name = skip_blanks(line, at);
    let Ok(end) = string_at(line, name) else {
        return Form::Plain;
    };
    match form_named(line, name) {
        Form::Plain => Form::Plain,
        named => only_form(line, end, named),
    }
}
