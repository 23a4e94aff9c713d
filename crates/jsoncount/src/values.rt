// Values, arrays and objects, counted.
ghost use Rattle.std.specs.Prelude.{drop};
ghost use Rattle.jsontext.specs.Values.{value, array};
ghost use Rattle.jsontrace.specs.Count.{counted};
ghost use Rattle.jsonruns.specs.Good.{Good};
ghost use Rattle.jsoncount.specs.Tally.{CountedTo};
ghost use Rattle.jsoncount.specs.Sizes.{array_size, object_size, object_read, braced_read};

use super::forms::count_form;
use super::scalars::count_scalar;
use super::tallies::Tally;
use jsonread::forms::form_at;
use jsonruns::{after_sign, first_part, part_after};
use jsontext::Form;

// items, after the bracket
#[cycle(count_braced_count_items_count_members_count_value)]
fn count_items(line: &[u8], at: usize, levels: u32, tally: &mut Tally) -> usize
    requires { Good line.now at (array (value levels) (drop at line.now)) }
    ensures { CountedTo line.now at tally.old tally.new result (array (value levels) (drop at line.now)) array_size }
{
    let mut part = first_part(line, at, b']');
    while let Ok(i) = part {
        tally.add_member();
        let end = count_value(line, i, levels, tally);
        part = part_after(line, end, b']');
    }
    tally.add_value();
    part.unwrap_err()
}

// members, after the brace
#[cycle(count_braced_count_items_count_members_count_value)]
pub fn count_members(line: &[u8], at: usize, levels: u32, tally: &mut Tally) -> usize
    requires { Good line.now at (object_read levels (drop at line.now)) }
    ensures { CountedTo line.now at tally.old tally.new result (object_read levels (drop at line.now)) object_size }
{
    let mut part = first_part(line, at, b'}');
    while let Ok(i) = part {
        tally.add_member();
        let name_end = tally.add_string(line, i);
        let end = count_value(line, after_sign(line, name_end), levels, tally);
        part = part_after(line, end, b'}');
    }
    tally.add_value();
    part.unwrap_err()
}

// an object or a form, after the brace
#[cycle(count_braced_count_items_count_members_count_value)]
fn count_braced(line: &[u8], at: usize, levels: u32, tally: &mut Tally) -> usize
    requires { Good line.now at (braced_read levels (drop at line.now)) }
    ensures { CountedTo line.now at tally.old tally.new result (braced_read levels (drop at line.now)) counted }
{
    match form_at(line, at) {
        Form::Plain => count_members(line, at, levels, tally),
        Form::Entity => count_form(line, at, false, tally),
        Form::Extension => count_form(line, at, true, tally),
    }
}

// a value, with so many levels left
#[cycle(count_braced_count_items_count_members_count_value)]
pub fn count_value(line: &[u8], at: usize, levels: u32, tally: &mut Tally) -> usize
    requires { Good line.now at (value levels (drop at line.now)) }
    ensures { CountedTo line.now at tally.old tally.new result (value levels (drop at line.now)) counted }
{
    match line[at] {
        b'[' => count_items(line, at + 1, levels - 1, tally),
        b'{' => count_braced(line, at + 1, levels - 1, tally),
        _ => count_scalar(line, at, tally),
    }
}
