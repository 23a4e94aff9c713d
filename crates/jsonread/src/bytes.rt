// Blanks, and a byte that is due.
ghost use Rattle.std.specs.Prelude.{◌≡◌, Bool, ◌≤◌, length, drop};
ghost use Rattle.jsontext.specs.Reading.{is_blank, want};
ghost use Rattle.jsonread.specs.Told.{Told, Blanks};

use jsontext::{Bad, Fault};

fn is_blank(c: u8) -> bool
    ensures { ◌≡◌ {A = Bool} result (is_blank c) }
{
    c == b' ' || c == b'\t' || c == b'\r'
}

pub fn skip_blanks(line: &[u8], at: usize) -> usize
    requires { at ≤ length line.now }
    ensures { Blanks line.now at result }
{
    let mut i = at;
    // a while: what stands at its end is told of i, at a blank and at the line's end alike
    while i < line.len() {
        if !is_blank(line[i]) {
            return i;
        }
        i += 1;
    }
    i
}

pub fn want_at(line: &[u8], at: usize, b: u8) -> Result<usize, Bad>
    requires { at ≤ length line.now }
    ensures { Told line.now at result (want b (drop at line.now)) }
{
    if line.len() <= at {
        return Err(Bad::new(Fault::NotJson, at));
    }
    if line[at] == b {
        return Ok(at + 1);
    }
    Err(Bad::new(Fault::NotJson, at))
}
