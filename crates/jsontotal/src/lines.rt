// A good line and a good log, counted.
ghost use Rattle.jsontext.specs.Events.{line as line_of};
ghost use Rattle.jsonlines.specs.Events.{LogIs};
ghost use Rattle.jsonruns.specs.Good.{Good};
ghost use Rattle.jsontotal.specs.Totals.{LineAdds, LogCounted};

use super::fields::count_entries;
use jsoncount::tallies::Tally;
use jsonlines::events::line_end;
use jsonread::bytes::skip_blanks;

// a line's event
pub fn count_line(line: &[u8], tally: &mut Tally)
    requires { Good line.now 0 (line_of line.now) }
    ensures { LineAdds line.now tally.old tally.new }
{
    tally.add_point();
    count_entries(line, skip_blanks(line, 0) + 1, tally);
}

// all lines of a text
pub fn count_log(text: &[u8]) -> Tally
    requires { LogIs text.now }
    ensures { LogCounted text.now result }
{
    let mut tally = Tally::default();
    let mut at = 0;
    // a while: the place moves from line to line
    while at < text.len() {
        let end = line_end(text, at);
        count_line(&text[at..end], &mut tally);
        at = end + 1;
    }
    tally
}
