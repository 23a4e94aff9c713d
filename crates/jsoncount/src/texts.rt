// The namespace of a good event, counted.
ghost use Rattle.std.specs.Prelude.{drop};
ghost use Rattle.jsontext.specs.Values.{text, array};
ghost use Rattle.jsonruns.specs.Good.{Good};
ghost use Rattle.jsoncount.specs.Tally.{CountedTo};
ghost use Rattle.jsoncount.specs.Sizes.{texts_size};

use super::tallies::Tally;
use jsonruns::{first_part, part_after};

// strings, after the bracket; each is a list word too
pub fn count_texts(line: &[u8], at: usize, tally: &mut Tally) -> usize
    requires { Good line.now at (array text (drop at line.now)) }
    ensures { CountedTo line.now at tally.old tally.new result (array text (drop at line.now)) texts_size }
{
    let mut part = first_part(line, at, b']');
    while let Ok(i) = part {
        let end = tally.add_string(line, i);
        tally.add_lists(1);
        part = part_after(line, end, b']');
    }
    part.unwrap_err()
}
