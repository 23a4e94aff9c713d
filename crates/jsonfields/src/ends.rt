// Where the value of an event's field ends.
ghost use Rattle.std.specs.Prelude.{◌≡◌, drop};
ghost use Rattle.jsonruns.specs.Good.{Good, Ends};
ghost use Rattle.jsonlines.specs.Fields.{reader_at};
ghost use Rattle.jsonfields.specs.Places.{levels_of};

use jsonends::value_end;

// how deep a field's value may be: attributes stand in an entity, and entities in an array
fn levels_of(field: usize) -> u32
    ensures { result ≡ levels_of field }
{
    if field < 8 { 32 } else { 34 }
}

// after a field's value
pub fn field_end(line: &[u8], at: usize, field: usize) -> usize
    requires { Good line.now at (reader_at field (drop at line.now)) }
    ensures { Ends line.now at result (reader_at field (drop at line.now)) }
{
    value_end(line, at, levels_of(field))
}
