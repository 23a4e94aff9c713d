// A member's name, Cedar's forms, and values that hold no other.
ghost use Rattle.std.specs.Prelude.{◌≡◌, ◌+◌, ◌-◌, ◌*◌, ◌/◌, ◌%◌, ◌≤◌, [], ◌∷◌, length, drop};
ghost use Rattle.laws.specs.Writing.{Writing};
ghost use Rattle.encode.specs.Words.{packed};
ghost use Rattle.jsonroom.specs.Put.{ValuePut};
ghost use Rattle.jsontext.specs.Strings.{string};
ghost use Rattle.jsonparts.specs.Flat.{scalar};
ghost use Rattle.jsontext.specs.Reading.{mapped};
ghost use Rattle.jsontext.specs.Numbers.{number};
ghost use Rattle.jsontext.specs.Values.{Text};
ghost use Rattle.jsonruns.specs.Good.{Good};
ghost use Rattle.jsonruns.specs.Forms.{form_read};
ghost use Rattle.jsonadds.specs.Place.{Due, WroteTo, MemberRoom, HeldRoom, value_tables, name_tables, NameDue, NameWritten, TwoDue, TwoWritten, FlatDue, FlatTold, MagnitudeTold, IntegerTold};

use joining::narrow;
use jsonadds::Flat;
use jsonparts::scalars::scalar_at;
use jsonread::integers::int_at;
use jsonroom::{Bodies, Next, put_member, put_string, put_value};
use jsonruns::{after_sign, two_of};

// a string, as one more of its table, and where it ends
pub fn put_text(line: &[u8], at: usize, out: &mut [u8], b: Bodies, next: &mut Next) -> usize
    requires { Due line.now at (string (drop at line.now)) out.old b next.old name_tables }
    ensures { WroteTo line.now at (string (drop at line.now)) out.old out.new b next.old name_tables next.new result }
{
    put_string(line, at, out, b, next)
}

// a member's name, and where its value begins
pub fn put_name(line: &[u8], at: usize, out: &mut [u8], b: Bodies, next: &mut Next) -> usize
    requires { NameDue line.now at out.old b next.old }
    ensures { NameWritten line.now at out.old out.new b next.old next.new result }
{
    let end = put_text(line, at, out, b, next);
    after_sign(line, end)
}

// a member of a run, of the value that was written last
pub fn put_part(out: &mut [u8], b: Bodies, i: usize, name: usize, next: Next)
    requires { MemberRoom out.old b i name next }
    ensures { Writing out.old out.new (b.members + 8 * i) (packed (name ∷ (next.value - 1) ∷ [])) }
{
    put_member(out, b, i, name, next.value - 1);
}

// the record of an array or object whose run of so many members begins at `first`
pub fn put_held(out: &mut [u8], b: Bodies, next: &mut Next, kind: u32, first: usize, count: usize)
    requires { HeldRoom out.old b next.old first count }
    ensures { ValuePut out.old out.new b next.old kind first count next.new }
{
    put_value(out, b, next, kind, narrow(first), narrow(count));
}

// two strings
pub fn put_two(line: &[u8], one: usize, other: usize, out: &mut [u8], b: Bodies, next: &mut Next)
    requires { TwoDue line.now one other out.old b next.old }
    ensures { TwoWritten line.now one other out.old out.new b next.old next.new }
{
    put_text(line, one, out, b, next);
    put_text(line, other, out, b, next);
}

// a form, after its brace, and where it ends
pub fn write_form(
    line: &[u8],
    at: usize,
    extension: bool,
    out: &mut [u8],
    b: Bodies,
    next: &mut Next,
) -> usize
    requires { Due line.now at (form_read extension (drop at line.now)) out.old b next.old value_tables }
    ensures { WroteTo line.now at (form_read extension (drop at line.now)) out.old out.new b next.old value_tables next.new result }
{
    let string = narrow(next.string);
    let two = two_of(line, at, extension);
    if extension {
        put_text(line, two.second, out, b, next);
        put_value(out, b, next, 3, string, 0);
        two.end
    } else {
        put_two(line, two.first, two.second, out, b, next);
        put_value(out, b, next, 5, string, string + 1);
        two.end
    }
}

// an integer's digits
fn magnitude_of(line: &[u8], at: usize) -> u64
    requires { at ≤ length line.now }
    ensures { MagnitudeTold line.now at result }
{
    match int_at(line, at) {
        Ok(digits) => digits.value,
        Err(_) => 0,
    }
}

// an integer's 64 bits
pub fn integer_of(line: &[u8], at: usize) -> u64
    requires { Good line.now at (number (drop at line.now)) }
    ensures { IntegerTold line.now at result }
{
    if line[at] == b'-' {
        return magnitude_of(line, at + 1).wrapping_neg();
    }
    magnitude_of(line, at)
}

pub fn low_of(z: u64) -> u32
    ensures { result ≡ z % 4294967296 }
{
    (z % 4294967296) as u32
}

pub fn high_of(z: u64) -> u32
    ensures { result ≡ z / 4294967296 }
{
    (z / 4294967296) as u32
}

// the record of a word or a number
fn flat_of(line: &[u8], at: usize) -> Flat
    requires { FlatDue line.now at }
    ensures { FlatTold line.now at result }
{
    match line[at] {
        b'n' => Flat {
            kind: 0,
            x: 0,
            y: 0,
        },
        b't' => Flat {
            kind: 1,
            x: 1,
            y: 0,
        },
        b'f' => Flat {
            kind: 1,
            x: 0,
            y: 0,
        },
        _ => {
            let z = integer_of(line, at);
            Flat {
                kind: 2,
                x: low_of(z),
                y: high_of(z),
            }
        }
    }
}

// a string as a value, and where it ends
fn write_text(line: &[u8], at: usize, out: &mut [u8], b: Bodies, next: &mut Next) -> usize
    requires { Due line.now at (mapped Text (string (drop at line.now))) out.old b next.old value_tables }
    ensures { WroteTo line.now at (mapped Text (string (drop at line.now))) out.old out.new b next.old value_tables next.new result }
{
    let string = narrow(next.string);
    let end = put_text(line, at, out, b, next);
    put_value(out, b, next, 4, string, 0);
    end
}

// a string, a number or a word, and where it ends
pub fn write_scalar(line: &[u8], at: usize, out: &mut [u8], b: Bodies, next: &mut Next) -> usize
    requires { Due line.now at (scalar (drop at line.now)) out.old b next.old value_tables }
    ensures { WroteTo line.now at (scalar (drop at line.now)) out.old out.new b next.old value_tables next.new result }
{
    if line[at] == b'"' {
        return write_text(line, at, out, b, next);
    }
    let f = flat_of(line, at);
    put_value(out, b, next, f.kind, f.x, f.y);
    scalar_at(line, at).unwrap_or(at)
}
