// Namespace, action and kind.
ghost use Rattle.std.specs.Prelude.{drop};
ghost use Rattle.jsontext.specs.Values.{text, array};
ghost use Rattle.jsonentities.specs.Put.{MarkDue};
ghost use Rattle.jsonpieces.specs.Parts.{space_tables, SpacesWritten, NamesDue, NamesWritten};

use jsonentities::keys::put_named;
use jsonentry::Fields;
use jsonleaf::flats::put_two;
use jsonroom::{Bodies, Next};
use jsonruns::{first_part, part_after};

// strings of a namespace, after the bracket, each named by a list word
fn put_spaces(line: &[u8], at: usize, out: &mut [u8], marks: &mut [u8], b: Bodies, next: &mut Next)
    requires { MarkDue line.now at (array text (drop at line.now)) out.old marks.old b next.old space_tables }
    ensures { SpacesWritten (array text (drop at line.now)) out.old out.new marks.old marks.new b next.old next.new }
{
    let mut part = first_part(line, at, b']');
    while let Ok(i) = part {
        let end = put_named(line, i, out, marks, b, next);
        part = part_after(line, end, b']');
    }
}

// namespace, action, kind
pub fn put_names(
    line: &[u8],
    f: Fields,
    out: &mut [u8],
    marks: &mut [u8],
    b: Bodies,
    next: &mut Next,
)
    requires { NamesDue line.now f out.old marks.old b next.old }
    ensures { NamesWritten line.now out.old out.new marks.old marks.new b next.old next.new }
{
    put_spaces(line, f.namespace + 1, out, marks, b, next);
    put_two(line, f.action, f.kind, out, b, next);
}
