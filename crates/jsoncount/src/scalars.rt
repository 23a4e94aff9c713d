// A value that holds no other, counted.
ghost use Rattle.std.specs.Prelude.{drop};
ghost use Rattle.jsonparts.specs.Flat.{scalar};
ghost use Rattle.jsontrace.specs.Count.{counted};
ghost use Rattle.jsonruns.specs.Good.{Good};
ghost use Rattle.jsoncount.specs.Tally.{CountedTo};

use super::tallies::Tally;
use jsonparts::scalars::scalar_at;

// a string, a number or a word
pub fn count_scalar(line: &[u8], at: usize, tally: &mut Tally) -> usize
    requires { Good line.now at (scalar (drop at line.now)) }
    ensures { CountedTo line.now at tally.old tally.new result (scalar (drop at line.now)) counted }
{
    if line[at] == b'"' {
        let end = tally.add_string(line, at);
        tally.add_value();
        return end;
    }
    tally.add_value();
    scalar_at(line, at).unwrap_or(at)
}
