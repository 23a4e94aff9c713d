// Values that hold no other.
ghost use Rattle.std.specs.Prelude.{◌≤◌, length, drop};
ghost use Rattle.jsonread.specs.Told.{Told};
ghost use Rattle.jsonparts.specs.Flat.{scalar};

use jsonread::begins::{is_numeral, word_at};
use jsonread::integers::number_at;
use jsonread::strings::string_at;
use jsontext::{Bad, Fault};

pub fn scalar_at(line: &[u8], at: usize) -> Result<usize, Bad>
    requires { at ≤ length line.now }
    ensures { Told line.now at result (scalar (drop at line.now)) }
{
    if line.len() <= at {
        return Err(Bad::new(Fault::NotJson, at));
    }
    match line[at] {
        b'"' => string_at(line, at),
        b't' => word_at(line, at, b"true"),
        b'f' => word_at(line, at, b"false"),
        b'n' => word_at(line, at, b"null"),
        c if is_numeral(c) => number_at(line, at),
        _ => Err(Bad::new(Fault::NotJson, at)),
    }
}
