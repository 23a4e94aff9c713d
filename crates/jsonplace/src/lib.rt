// Values, arrays and objects. The names of open objects end at `used`.

#![tactic(auto)]

ghost use Rattle.std.specs.Prelude.{drop};
ghost use Rattle.jsontext.specs.Values.{value, array};
ghost use Rattle.jsoncount.specs.Sizes.{object_read, braced_read};
ghost use Rattle.jsonadds.specs.Place.{PlaceDue, Placed, RunPlaced, Counts, array_tables, array_value, object_value, value_tables, named, named_items, named_members, PartsDue, PartsWritten};

use jsonleaf::flats::{put_held, put_name, put_part, write_form, write_scalar};
use jsonleaf::parts::{after_run, count_items, sort_names};
use jsonread::forms::form_at;
use jsonroom::{Bodies, Next};
use jsonruns::{first_part, part_after};
use jsontext::Form;

// in place of the number of a name, where a member has none
const NO_NAME: usize = u32::MAX as usize;

// items, after the bracket, each a member of the run of so many
#[cycle(put_items_put_members_write_array_write_braced_write_object_write_value)]
fn put_items(
    line: &[u8],
    at: usize,
    levels: u32,
    names: &mut [u64],
    used: usize,
    out: &mut [u8],
    b: Bodies,
    next: &mut Next,
    count: usize,
)
    requires place_due { PlaceDue line.now at (array (value levels) (drop at line.now)) out.old b next.old array_tables names.old used named_items }
    requires counts { Counts (array (value levels) (drop at line.now)) count }
    ensures { RunPlaced (array (value levels) (drop at line.now)) out.old out.new b next.old array_tables next.new used names.old names.new }
{
    let first = next.member;
    after_run(next, count);
    let mut k = 0;
    let mut part = first_part(line, at, b']');
    while let Ok(i) = part {
        let end = write_value(line, i, levels, names, used, out, b, next);
        put_part(out, b, first + k, NO_NAME, *next);
        k += 1;
        part = part_after(line, end, b']');
    }
}

// an array, after its bracket, and where it ends
#[cycle(put_items_put_members_write_array_write_braced_write_object_write_value)]
fn write_array(
    line: &[u8],
    at: usize,
    levels: u32,
    names: &mut [u64],
    used: usize,
    out: &mut [u8],
    b: Bodies,
    next: &mut Next,
) -> usize
    requires { PlaceDue line.now at (array (value levels) (drop at line.now)) out.old b next.old array_value names.old used named_items }
    ensures { Placed line.now at (array (value levels) (drop at line.now)) out.old out.new b next.old array_value next.new result used names.old names.new }
{
    let m = count_items(line, at, levels);
    let first = next.member;
    put_items(line, at, levels, names, used, out, b, next, m.count);
    put_held(out, b, next, 6, first, m.count);
    m.end
}

// members by the names from cell `used` to `stop`, each a member of the run
#[cycle(put_items_put_members_write_array_write_braced_write_object_write_value)]
fn put_members(
    line: &[u8],
    levels: u32,
    names: &mut [u64],
    used: usize,
    stop: usize,
    out: &mut [u8],
    b: Bodies,
    next: &mut Next,
)
    requires { PartsDue levels line.now names.old used stop out.old b next.old }
    ensures { PartsWritten levels line.now names.old names.new used stop out.old out.new b next.old next.new }
{
    let first = next.member;
    after_run(next, stop - used);
    for i in used..stop {
        let string = next.string;
        let begin = put_name(line, names[i] as usize, out, b, next);
        write_value(line, begin, levels, names, stop, out, b, next);
        put_part(out, b, first + (i - used), string, *next);
    }
}

// an object, after its brace, and where it ends
#[cycle(put_items_put_members_write_array_write_braced_write_object_write_value)]
pub fn write_object(
    line: &[u8],
    at: usize,
    levels: u32,
    names: &mut [u64],
    used: usize,
    out: &mut [u8],
    b: Bodies,
    next: &mut Next,
) -> usize
    requires { PlaceDue line.now at (object_read levels (drop at line.now)) out.old b next.old object_value names.old used named_members }
    ensures { Placed line.now at (object_read levels (drop at line.now)) out.old out.new b next.old object_value next.new result used names.old names.new }
{
    let m = sort_names(line, at, levels, names, used);
    let first = next.member;
    put_members(line, levels, names, used, used + m.count, out, b, next);
    put_held(out, b, next, 7, first, m.count);
    m.end
}

// an object or a form, after the brace, and where it ends
#[cycle(put_items_put_members_write_array_write_braced_write_object_write_value)]
fn write_braced(
    line: &[u8],
    at: usize,
    levels: u32,
    names: &mut [u64],
    used: usize,
    out: &mut [u8],
    b: Bodies,
    next: &mut Next,
) -> usize
    requires { PlaceDue line.now at (braced_read levels (drop at line.now)) out.old b next.old value_tables names.old used named }
    ensures { Placed line.now at (braced_read levels (drop at line.now)) out.old out.new b next.old value_tables next.new result used names.old names.new }
{
    match form_at(line, at) {
        Form::Plain => write_object(line, at, levels, names, used, out, b, next),
        Form::Entity => write_form(line, at, false, out, b, next),
        Form::Extension => write_form(line, at, true, out, b, next),
    }
}

// a value, with so many levels left, and where it ends
#[cycle(put_items_put_members_write_array_write_braced_write_object_write_value)]
pub fn write_value(
    line: &[u8],
    at: usize,
    levels: u32,
    names: &mut [u64],
    used: usize,
    out: &mut [u8],
    b: Bodies,
    next: &mut Next,
) -> usize
    requires { PlaceDue line.now at (value levels (drop at line.now)) out.old b next.old value_tables names.old used named }
    ensures { Placed line.now at (value levels (drop at line.now)) out.old out.new b next.old value_tables next.new result used names.old names.new }
{
    match line[at] {
        b'[' => write_array(line, at + 1, levels - 1, names, used, out, b, next),
        b'{' => write_braced(line, at + 1, levels - 1, names, used, out, b, next),
        _ => write_scalar(line, at, out, b, next),
    }
}
