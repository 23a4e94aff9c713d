// Cedar's forms, counted.
ghost use Rattle.std.specs.Prelude.{drop};
ghost use Rattle.jsontrace.specs.Count.{counted};
ghost use Rattle.jsonruns.specs.Good.{Good};
ghost use Rattle.jsonruns.specs.Forms.{form_read};
ghost use Rattle.jsoncount.specs.Tally.{CountedTo};

use super::tallies::Tally;
use jsonruns::two_of;

// after the brace: type and id, or the argument alone
pub fn count_form(line: &[u8], at: usize, extension: bool, tally: &mut Tally) -> usize
    requires { Good line.now at (form_read extension (drop at line.now)) }
    ensures { CountedTo line.now at tally.old tally.new result (form_read extension (drop at line.now)) counted }
{
    let two = two_of(line, at, extension);
    if !extension {
        tally.add_string(line, two.first);
    }
    tally.add_string(line, two.second);
    tally.add_value();
    two.end
}
