// The namespace: a list of strings.
ghost use Rattle.std.specs.Prelude.{◌≤◌, length, drop};
ghost use Rattle.jsontext.specs.Values.{text, array};
ghost use Rattle.jsontext.specs.Events.{listed};
ghost use Rattle.jsonread.specs.Told.{Told};

use jsonread::begins::{instead, text_at};
use jsonread::bytes::skip_blanks;
use jsontext::{Bad, Fault};

// strings, after the bracket
fn texts_at(line: &[u8], at: usize) -> Result<usize, Bad>
    requires { at ≤ length line.now }
    ensures { Told line.now at result (array text (drop at line.now)) }
{
    let mut i = skip_blanks(line, at);
    if line.len() <= i {
        return Err(Bad::new(Fault::NotJson, i));
    }
    if line[i] == b']' {
        return Ok(i + 1);
    }
    loop {
        let e = text_at(line, i)?;
        let k = skip_blanks(line, e);
        if line.len() <= k {
            return Err(Bad::new(Fault::NotJson, k));
        }
        if line[k] == b']' {
            return Ok(k + 1);
        }
        if line[k] != b',' {
            return Err(Bad::new(Fault::NotJson, k));
        }
        i = skip_blanks(line, k + 1);
    }
}

// a list of strings, and nothing else
pub fn namespace_at(line: &[u8], at: usize) -> Result<usize, Bad>
    requires { at ≤ length line.now }
    ensures { Told line.now at result (listed (array text) (drop at line.now)) }
{
    if line.len() <= at {
        return Err(Bad::new(Fault::NotJson, at));
    }
    let c = line[at];
    if c != b'[' {
        return Err(Bad::new(instead(c, Fault::BadField), at));
    }
    texts_at(line, at + 1)
}
