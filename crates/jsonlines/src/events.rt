// Events and lines: the first fault of a text.
ghost use Rattle.std.specs.Prelude.{◌≡◌, Bool, ◌+◌, ◌<◌, ◌≤◌, eqb, length, drop};
ghost use Rattle.jsontext.specs.Values.{due};
ghost use Rattle.jsontext.specs.Events.{event, line as line_of};
ghost use Rattle.jsonmarks.specs.Marks.{Filed};
ghost use Rattle.jsonkeys.specs.Keys.{Room, Passed};
ghost use Rattle.jsonlines.specs.Events.{NameTold, EntryTold, whole_bits, closed_by, event_of, line_length, LogTold};

use super::fields::{field_at, field_of};
use jsonkeys::{Turn, begin_at, key_at, turn_at};
use jsonread::begins::instead;
use jsonread::bytes::skip_blanks;
use jsontext::{Bad, Fault};

// a name of a field, kept with the others, and its colon: the field, and where its value begins
fn name_at(line: &[u8], at: usize, names: &mut [u64], end: usize) -> Result<(usize, usize), Bad>
    requires at_in_bounds { at ≤ length line.now }
    requires filed { Filed line.now names.old 0 end }
    requires room { Room line.now names.old end at 0 }
    ensures { NameTold line.now names.old names.new end at result }
{
    let field = field_of(line, at);
    let v = key_at(line, at, field < 9, names, 0, end)?;
    Ok((field, v))
}

// a name of a field, and its value: the field, and where it ends
fn entry_at(line: &[u8], at: usize, names: &mut [u64], end: usize) -> Result<(usize, usize), Bad>
    requires at_in_bounds { at ≤ length line.now }
    requires filed { Filed line.now names.old 0 end }
    requires room { Room line.now names.old end at 0 }
    ensures { EntryTold line.now names.old names.new end at result }
{
    let (field, v) = name_at(line, at, names, end)?;
    let e = field_at(line, v, field, names, end + 1)?;
    Ok((field, e))
}

// none but principal and resource may be missing
fn is_whole(seen: [bool; 9]) -> bool
    ensures { ◌≡◌ {A = Bool} result (whole_bits seen) }
{
    seen[0] && seen[1] && seen[2] && seen[3] && seen[4] && seen[5] && seen[8]
}

// after the closing brace
fn closed(at: usize, seen: [bool; 9]) -> Result<usize, Bad>
    requires { 0 < at }
    ensures { result ≡ closed_by at seen }
{
    if is_whole(seen) {
        return Ok(at);
    }
    Err(Bad::new(Fault::BadField, at - 1))
}

// an event's members, after its brace
fn event_at(line: &[u8], at: usize, names: &mut [u64]) -> Result<usize, Bad>
    requires at_nonzero { 0 < at }
    requires at_in_bounds { at ≤ length line.now }
    requires room { Room line.now names.old 0 at 0 }
    ensures { Passed line.now names.old names.new 0 at result (event_of (drop at line.now)) }
{
    let mut i = match begin_at(line, at, b'}')? {
        Turn::Over(e) => return Err(Bad::new(Fault::BadField, e - 1)),
        Turn::On(k) => k,
    };
    let mut seen = [false; 9];
    let mut end = 0;
    loop {
        let (field, after) = entry_at(line, i, names, end)?;
        seen[field] = true;
        match turn_at(line, after, b'}')? {
            Turn::Over(k) => return closed(k, seen),
            Turn::On(n) => {
                i = n;
                end += 1;
            }
        }
    }
}

// an event from its brace on, and nothing else
fn object_at(line: &[u8], at: usize, names: &mut [u64]) -> Result<usize, Bad>
    requires at_in_bounds { at ≤ length line.now }
    requires room { Room line.now names.old 0 at 0 }
    ensures { Passed line.now names.old names.new 0 at result (due Fault.BadField (λ c. eqb c 123) event (drop at line.now)) }
{
    if line.len() <= at {
        return Err(Bad::new(Fault::NotJson, at));
    }
    let c = line[at];
    if c != b'{' {
        return Err(Bad::new(instead(c, Fault::BadField), at));
    }
    event_at(line, at + 1, names)
}

// a line: an event, and nothing else
pub fn line_at(line: &[u8], names: &mut [u64]) -> Result<usize, Bad>
    requires { Room line.now names.old 0 0 0 }
    ensures { Passed line.now names.old names.new 0 0 result (line_of line.now) }
{
    let e = object_at(line, skip_blanks(line, 0), names)?;
    let i = skip_blanks(line, e);
    if i < line.len() {
        return Err(Bad::new(Fault::NotJson, i));
    }
    Ok(i)
}

// where the line from `at` on ends
pub fn line_end(text: &[u8], at: usize) -> usize
    requires { at ≤ length text.now }
    ensures { result ≡ at + line_length (drop at text.now) }
{
    for i in at..text.len() {
        if text[i] == b'\n' {
            return i;
        }
    }
    text.len()
}

// a fault of the line from `at` on, at its place in the text
fn placed(text: &[u8], at: usize, b: Bad) -> Bad
    requires p_in_bounds { at + b.at ≤ length text.now }
    requires q_in_bounds { at + b.first ≤ length text.now }
    ensures { result ≡ record { fault = b.fault; at = at + b.at; first = at + b.first } }
{
    Bad {
        fault: b.fault,
        at: at + b.at,
        first: at + b.first,
    }
}

// the first fault of a text, at its place in the text; or where the text ends
pub fn log_at(text: &[u8], names: &mut [u64]) -> Result<usize, Bad>
    requires { Room text.now names.old 0 0 0 }
    ensures { LogTold text.now names.old names.new result }
{
    let mut at = 0;
    while at < text.len() {
        let end = line_end(text, at);
        match line_at(&text[at..end], names) {
            Err(b) => return Err(placed(text, at, b)),
            Ok(_) => {
                if text.len() <= end {
                    return Ok(end);
                }
                at = end + 1;
            }
        }
    }
    Ok(at)
}
