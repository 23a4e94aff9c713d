// The fields of a good event, counted one after another.
ghost use Rattle.std.specs.Prelude.{drop};
ghost use Rattle.jsontext.specs.Numbers.{number};
ghost use Rattle.jsontext.specs.Values.{numeral, due};
ghost use Rattle.jsonlines.specs.Fields.{reader_at};
ghost use Rattle.jsonruns.specs.Good.{Good, Ends};
ghost use Rattle.jsoncount.specs.Tally.{CountedTo};
ghost use Rattle.jsontotal.specs.Fields.{field_size, entries_read, entries_size};

use jsoncount::entities::{count_entities, count_fields};
use jsoncount::tallies::Tally;
use jsoncount::texts::count_texts;
use jsoncount::values::count_value;
use jsonlines::fields::field_of;
use jsonread::begins::time_at;
use jsonruns::{after_sign, first_part, part_after, string_end};
use jsontext::Fault;

// a time adds nothing
fn time_end(line: &[u8], at: usize) -> usize
    requires { Good line.now at (due Fault.BadField numeral number (drop at line.now)) }
    ensures { Ends line.now at result (due Fault.BadField numeral number (drop at line.now)) }
{
    time_at(line, at).unwrap_or(at)
}

// the value of a field, by its place in a point's record
fn count_field(line: &[u8], at: usize, field: usize, tally: &mut Tally) -> usize
    requires { Good line.now at (reader_at field (drop at line.now)) }
    ensures { CountedTo line.now at tally.old tally.new result (reader_at field (drop at line.now)) field_size }
{
    // numbers: a field's is its place in a point's record, by which `fields_of` keeps it too
    match field {
        0 => time_end(line, at),
        1 => count_texts(line, at + 1, tally),
        2 => tally.add_string(line, at),
        3 => tally.add_string(line, at),
        4 => count_fields(line, at, tally),
        5 => count_fields(line, at, tally),
        6 => count_value(line, at, 32, tally),
        7 => count_value(line, at, 32, tally),
        _ => count_entities(line, at + 1, tally),
    }
}

// an event's members, after its brace
pub fn count_entries(line: &[u8], at: usize, tally: &mut Tally) -> usize
    requires { Good line.now at (entries_read (drop at line.now)) }
    ensures { CountedTo line.now at tally.old tally.new result (entries_read (drop at line.now)) entries_size }
{
    let mut part = first_part(line, at, b'}');
    while let Ok(i) = part {
        let field = field_of(line, i);
        let end = count_field(line, after_sign(line, string_end(line, i)), field, tally);
        part = part_after(line, end, b'}');
    }
    part.unwrap_err()
}
