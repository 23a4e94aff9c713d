// Strings that are named by list words; an entity's type and id.
ghost use Rattle.std.specs.Prelude.{drop};
ghost use Rattle.jsontext.specs.Strings.{string};
ghost use Rattle.jsoncount.specs.Sizes.{entity_read};
ghost use Rattle.jsonentities.specs.Put.{MarkDue, MarkWrote, SignedDue, SignedWritten, KeysWritten, named_tables, keys_tables};

use jsonleaf::flats::put_text;
use jsonread::bytes::skip_blanks;
use jsonroom::{Bodies, Next, put_list};
use jsonruns::after_sign;

// a string that is named by a list word, and where it ends
pub fn put_named(
    line: &[u8],
    at: usize,
    out: &mut [u8],
    marks: &mut [u8],
    b: Bodies,
    next: &mut Next,
) -> usize
    requires { MarkDue line.now at (string (drop at line.now)) out.old marks.old b next.old named_tables }
    ensures { MarkWrote line.now at (string (drop at line.now)) out.old out.new marks.old marks.new b next.old named_tables next.new result }
{
    let string = next.string;
    let end = put_text(line, at, out, b, next);
    put_list(out, marks, b, next, string, 1);
    end
}

// a named string, and where what stands behind its comma begins
fn put_signed(
    line: &[u8],
    at: usize,
    out: &mut [u8],
    marks: &mut [u8],
    b: Bodies,
    next: &mut Next,
) -> usize
    requires { SignedDue line.now at out.old marks.old b next.old }
    ensures { SignedWritten line.now at out.old out.new marks.old marks.new b next.old next.new result }
{
    let end = put_named(line, at, out, marks, b, next);
    after_sign(line, end)
}

// type and id, each with its word, and where the attributes begin
pub fn put_keys(
    line: &[u8],
    at: usize,
    out: &mut [u8],
    marks: &mut [u8],
    b: Bodies,
    next: &mut Next,
) -> usize
    requires { MarkDue line.now at (entity_read (drop at line.now)) out.old marks.old b next.old keys_tables }
    ensures { KeysWritten line.now at out.old out.new marks.old marks.new b next.old next.new result }
{
    let id = put_signed(line, skip_blanks(line, at + 1), out, marks, b, next);
    put_signed(line, id, out, marks, b, next)
}
