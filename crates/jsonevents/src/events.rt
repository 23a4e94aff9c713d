// An event's parts one after another, and its point.
ghost use Rattle.jsonentry.specs.Entries.{LineDue, LineWritten};

use super::names::put_names;
use super::points::put_point;
use super::values::put_values;
use jsonentities::written::put_entities;
use jsonfields::places::fields_of;
use jsonleaf::flats::integer_of;
use jsonpieces::Body;
use jsonroom::{Bodies, Next};

// an event's line adds a point
pub fn put_line(
    line: &[u8],
    names: &mut [u64],
    out: &mut [u8],
    marks: &mut [u8],
    b: Bodies,
    next: &mut Next,
)
    requires { LineDue line.now names.old out.old marks.old b next.old }
    ensures { LineWritten line.now names.old names.new out.old out.new marks.old marks.new b next.old next.new }
{
    let f = fields_of(line);
    let time = integer_of(line, f.time);
    let first = *next;
    put_names(line, f, out, marks, b, next);
    let spaces = next.list - first.list;
    let values = put_values(line, f, names, out, b, next);
    let list = next.list;
    let count = put_entities(line, f.entities + 1, names, out, marks, b, next);
    let body = Body {
        spaces,
        values,
        list,
        count,
    };
    put_point(out, b, next, time, first, body);
}
