// The values that a point names: logged, context, principal and resource.
ghost use Rattle.jsontext.specs.Values.{fields};
ghost use Rattle.jsonentry.specs.Fields.{Stands, MayStand};
ghost use Rattle.jsonpieces.specs.Parts.{OneDue, OneWritten, fields_tables, fields_word, maybe_tables, maybe_word, ValuesDue, ValuesWritten};

use jsonentry::Fields;
use jsonpieces::EventValues;
use jsonplace::{write_object, write_value};
use jsonroom::{Bodies, Next};

// in place of the number of a value that is missing
const NO_VALUE: usize = u32::MAX as usize;

// an object that is no form, from its brace on: the number of its value
fn put_fields(
    line: &[u8],
    at: usize,
    names: &mut [u64],
    out: &mut [u8],
    b: Bodies,
    next: &mut Next,
) -> usize
    requires { OneDue (Stands line.now at (fields 31)) fields_tables line.now names.old out.old b next.old }
    ensures { OneWritten (Stands line.now at (fields 31)) fields_tables fields_word names.old names.new out.old out.new b next.old next.new result }
{
    write_object(line, at + 1, 31, names, 0, out, b, next);
    next.value - 1
}

// a value that may be missing: its number
fn put_maybe(
    line: &[u8],
    at: usize,
    names: &mut [u64],
    out: &mut [u8],
    b: Bodies,
    next: &mut Next,
) -> usize
    requires { OneDue (MayStand line.now at) maybe_tables line.now names.old out.old b next.old }
    ensures { OneWritten (MayStand line.now at) maybe_tables maybe_word names.old names.new out.old out.new b next.old next.new result }
{
    if at == 0 {
        return NO_VALUE;
    }
    write_value(line, at, 32, names, 0, out, b, next);
    next.value - 1
}

// logged, context, principal, resource
pub fn put_values(
    line: &[u8],
    f: Fields,
    names: &mut [u64],
    out: &mut [u8],
    b: Bodies,
    next: &mut Next,
) -> EventValues
    requires { ValuesDue line.now f names.old out.old b next.old }
    ensures { ValuesWritten line.now names.old names.new out.old out.new b next.old next.new result }
{
    let logged = put_fields(line, f.logged, names, out, b, next);
    let context = put_fields(line, f.context, names, out, b, next);
    let principal = put_maybe(line, f.principal, names, out, b, next);
    let resource = put_maybe(line, f.resource, names, out, b, next);
    EventValues {
        logged,
        context,
        principal,
        resource,
    }
}
