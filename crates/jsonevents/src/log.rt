// The lines of a log, each written as a point.
ghost use Rattle.jsonentry.specs.Entries.{LogDue, LogWritten};

use super::events::put_line;
use jsonlines::events::line_end;
use jsonroom::{Bodies, Next};

// a log's points, from the first of all numbers on
pub fn put_log(text: &[u8], names: &mut [u64], out: &mut [u8], marks: &mut [u8], b: Bodies) -> Next
    requires { LogDue text.now names.old out.old marks.old b }
    ensures { LogWritten text.now names.old names.new out.old out.new marks.old marks.new b result }
{
    let mut next = Next::default();
    let mut at = 0;
    // a while: the place moves from line to line
    while at < text.len() {
        let end = line_end(text, at);
        put_line(&text[at..end], names, out, marks, b, &mut next);
        at = end + 1;
    }
    next
}
