// The import call: a text's first fault, or its trace and the marks of its list words.
ghost use Rattle.std.specs.Prelude.{◌*◌, ◌≤◌, length};
ghost use Rattle.jsonlines.specs.Events.{LogIs};
ghost use Rattle.jsonwrite.specs.Bodies.{Few, count_of, Laid};
ghost use Rattle.jsonwrite.specs.Import.{TraceDue, TraceWritten, GoodTold, ReadTold, Imports};

use jsoncheck::cells_for;
use jsoncount::tallies::Tally;
use jsonevents::log::put_log;
use jsonlines::events::log_at;
use jsonroom::{Bodies, put_contents};
use jsontotal::lines::count_log;
use jsontrace::ImportError;
use meaning::Refusal;
use workspace::clear;

// the most bytes that a file has: its places are words
const LONGEST: usize = u32::MAX as usize;

// where the bodies of so many records begin, one after another past the contents
fn bodies_of(c: Tally) -> Bodies
    requires { Few c }
    ensures { Laid (count_of c) result }
{
    let values = 64 + 8 * c.strings;
    let members = values + 16 * c.values;
    let points = members + 8 * c.members;
    let lists = points + 48 * c.points;
    let text = lists + 4 * c.lists;
    Bodies {
        strings: 64,
        values,
        members,
        points,
        lists,
        text,
        end: text + c.bytes,
    }
}

// the trace of a good text, in a file that it fills; the contents come last
fn put_trace(text: &[u8], names: &mut [u64], file: &mut [u8], marks: &mut [u8], b: Bodies)
    requires { TraceDue text.now names.old file.old marks.old b }
    ensures { TraceWritten text.now names.old names.new file.new marks.old marks.new }
{
    put_log(text, names, file, marks, b);
    put_contents(file, b);
}

// a good text: 2 where no file can hold its trace, 14 where what is lent does not, else its trace and marks
fn write_good(
    text: &[u8],
    names: &mut [u64],
    file: &mut [u8],
    marks: &mut [u8],
) -> Result<(usize, usize), ImportError>
    requires log_is { LogIs text.now }
    requires text_len_bound { length text.now ≤ 4 * length names.old }
    ensures { GoodTold text.now names.old names.new file.old file.new marks.old marks.new result }
{
    let c = count_log(text);
    let b = bodies_of(c);
    let total = b.end;
    if LONGEST < total {
        return Err(ImportError::Refused(Refusal::TooLarge));
    }
    if file.len() < total {
        return Err(ImportError::Refused(Refusal::OutputTooShort));
    }
    if marks.len() < c.lists {
        return Err(ImportError::Refused(Refusal::OutputTooShort));
    }
    put_trace(text, names, &mut file[..total], marks, b);
    Ok((total, c.lists))
}

// any text, with enough cells for its names: its first fault, or what a good text gives
fn read_text(
    text: &[u8],
    names: &mut [u64],
    file: &mut [u8],
    marks: &mut [u8],
) -> Result<(usize, usize), ImportError>
    requires { length text.now ≤ 4 * length names.old }
    ensures { ReadTold text.now names.old names.new file.old file.new marks.old marks.new result }
{
    match log_at(text, names) {
        Ok(_) => write_good(text, names, file, marks),
        Err(bad) => Err(ImportError::Faulty(bad)),
    }
}

// a text's trace and marks, with a workspace for the names of open objects: 10 first, and then nothing is touched; after all else the cells for names are 0
pub fn import(
    text: &[u8],
    workspace: &mut [u64],
    file: &mut [u8],
    marks: &mut [u8],
) -> Result<(usize, usize), ImportError>
    ensures { Imports text.now workspace.old workspace.new file.old file.new marks.old marks.new result }
{
    let n = cells_for(text.len());
    if workspace.len() < n {
        return Err(ImportError::Refused(Refusal::BadLimits));
    }
    let r = read_text(text, &mut workspace[..n], file, marks);
    clear(workspace, n);
    r
}
