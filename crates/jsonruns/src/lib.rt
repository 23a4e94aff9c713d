// Parts of a good line, one after another: what stands after a name or a part, and the strings of a form.

#![tactic(auto)]

ghost use Rattle.std.specs.Prelude.{◌≡◌, Bool, ◌≤◌, length, drop};
ghost use Rattle.jsontext.specs.Strings.{string};
ghost use Rattle.jsonruns.specs.Good.{Good, Ends, Signed, Past, Behind, BeginTold, PartTold};
ghost use Rattle.jsonruns.specs.Forms.{form_read, pair_read, FirstTold, kept_place, TwoTold};

use jsonread::bytes::skip_blanks;
use jsonread::names::is_word;
use jsonspelt::spelt_at;

// after a string that begins at `at`
pub fn string_end(line: &[u8], at: usize) -> usize
    requires { Good line.now at (string (drop at line.now)) }
    ensures { Ends line.now at result (string (drop at line.now)) }
{
    spelt_at(line, at).end
}

// where what follows a name or a string begins, past a colon or a comma
pub fn after_sign(line: &[u8], at: usize) -> usize
    requires { Signed line.now at }
    ensures { Past line.now at result }
{
    skip_blanks(line, skip_blanks(line, at) + 1)
}

// past a byte and the blanks before it
pub fn sign_end(line: &[u8], at: usize) -> usize
    requires { Signed line.now at }
    ensures { Behind line.now at result }
{
    skip_blanks(line, at) + 1
}

// where the first part after a bracket that opens stands; where the bracket closes, the place behind it
pub fn first_part(line: &[u8], at: usize, close: u8) -> Result<usize, usize>
    requires { Signed line.now at }
    ensures { BeginTold line.now at close result }
{
    let i = skip_blanks(line, at);
    if line[i] == close { Err(i + 1) } else { Ok(i) }
}

// where the part after another that ended at `at` stands; where the bracket closes, the place behind it
pub fn part_after(line: &[u8], at: usize, close: u8) -> Result<usize, usize>
    requires { Signed line.now at }
    ensures { PartTold line.now at close result }
{
    let sign = skip_blanks(line, at);
    if line[sign] == close {
        Err(sign + 1)
    } else {
        Ok(skip_blanks(line, sign + 1))
    }
}

// ---- Cedar's forms

// the strings of a form, each at its quotation mark: type and id, or fn and arg; and where it ends
#[derive(Clone, Copy)]
pub struct Two {
    pub first: usize,
    pub second: usize,
    pub end: usize,
}

// is a name the first of a form's two?
fn is_first(line: &[u8], at: usize, extension: bool) -> bool
    requires { at ≤ length line.now }
    ensures { FirstTold line.now at extension result }
{
    if extension {
        is_word(line, at, b"fn")
    } else {
        is_word(line, at, b"type")
    }
}

// a place is kept, where there was none
fn kept(old: Option<usize>, new: usize, is: bool) -> Option<usize>
    ensures { result ≡ kept_place old new is }
{
    if is { Some(old.unwrap_or(new)) } else { old }
}

// the two members, after the inner brace
fn pair_of(line: &[u8], at: usize, extension: bool) -> Two
    requires { Good line.now at (pair_read extension (drop at line.now)) }
    ensures { TwoTold line.now at extension result (pair_read extension (drop at line.now)) }
{
    let mut first = None;
    let mut second = None;
    let mut i = skip_blanks(line, at);
    loop {
        let one = is_first(line, i, extension);
        let value = after_sign(line, string_end(line, i));
        first = kept(first, value, one);
        second = kept(second, value, !one);
        match part_after(line, string_end(line, value), b'}') {
            Ok(next) => i = next,
            Err(end) => {
                return Two {
                    first: first.unwrap(),
                    second: second.unwrap(),
                    end,
                };
            }
        }
    }
}

// a form's only member, after its brace
pub fn two_of(line: &[u8], at: usize, extension: bool) -> Two
    requires { Good line.now at (form_read extension (drop at line.now)) }
    ensures { TwoTold line.now at extension result (form_read extension (drop at line.now)) }
{
    let name = skip_blanks(line, at);
    let brace = after_sign(line, string_end(line, name));
    let mut two = pair_of(line, brace + 1, extension);
    two.end = sign_end(line, two.end);
    two
}
