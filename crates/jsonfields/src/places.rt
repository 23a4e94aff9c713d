// Where the fields of a good line stand.
ghost use Rattle.std.specs.Prelude.{◌≡◌, drop};
ghost use Rattle.jsontext.specs.Events.{line as line_of};
ghost use Rattle.jsonruns.specs.Good.{Good};
ghost use Rattle.jsonlines.specs.Events.{event_of};
ghost use Rattle.jsonentry.specs.Fields.{FieldsTold};
ghost use Rattle.jsonfields.specs.Places.{first_place, fields_from, EntryGood, EntryTold, EventTold};

use super::ends::field_end;
use jsonentry::Fields;
use jsonlines::fields::field_of;
use jsonread::bytes::skip_blanks;
use jsonruns::{after_sign, first_part, part_after, string_end};

// a member of an event: which field it is, where its value begins, and where it ends
#[derive(Clone, Copy)]
pub struct Entry {
    pub field: usize,
    pub value: usize,
    pub end: usize,
}

// the first of two places; 0 is none
fn first_place(old: usize, new: usize) -> usize
    ensures { result ≡ first_place old new }
{
    if old == 0 { new } else { old }
}

// the places of the nine fields, each under its name
fn fields_from(places: [usize; 9]) -> Fields
    ensures { result ≡ fields_from places }
{
    Fields {
        time: places[0],
        namespace: places[1],
        action: places[2],
        kind: places[3],
        logged: places[4],
        context: places[5],
        principal: places[6],
        resource: places[7],
        entities: places[8],
    }
}

// a member of an event whose name stands at `at`
fn entry_of(line: &[u8], at: usize) -> Entry
    requires { EntryGood line.now at }
    ensures { EntryTold line.now at result }
{
    let field = field_of(line, at);
    let value = after_sign(line, string_end(line, at));
    Entry {
        field,
        value,
        end: field_end(line, value, field),
    }
}

// an event's fields, after its brace: the first member of each kind
fn event_fields(line: &[u8], at: usize) -> Fields
    requires { Good line.now at (event_of (drop at line.now)) }
    ensures { EventTold line.now at result }
{
    let mut places = [0; 9];
    let mut part = first_part(line, at, b'}');
    while let Ok(i) = part {
        let m = entry_of(line, i);
        places[m.field] = first_place(places[m.field], m.value);
        part = part_after(line, m.end, b'}');
    }
    fields_from(places)
}

// the fields of a line
pub fn fields_of(line: &[u8]) -> Fields
    requires { Good line.now 0 (line_of line.now) }
    ensures { FieldsTold line.now result }
{
    event_fields(line, skip_blanks(line, 0) + 1)
}
