// The writer: an unsorted case becomes a finished one, checked in the room before the output is touched.

#![tactic(auto)]

ghost use Rattle.std.specs.Prelude.{◌≡◌, true};
ghost use Rattle.meaning.specs.Check.{bodies, mosts};
ghost use Rattle.encode.specs.Unsorted.{finished};
ghost use Rattle.casewrite.specs.Written.{against_as, marks_refusal, case_refusal, WritesOut, WritesChecked, Writes};

use casecheck::check;
use making::make;
use marking::{nodes_marked, points_marked, strings_in_text};
use meaning::Refusal;
use refusals::number;
use writer::write_case;

// places used against their marks: points before nodes
fn against_marks(marks: &[u8], f: &[u8], pass: bool) -> Result<(), Refusal>
    requires { bodies f.now ≡ true }
    ensures { result ≡ against_as (marks_refusal marks.now f.now pass) }
{
    if !points_marked(f, marks) {
        return Err(Refusal::BadPoints);
    }
    if pass && nodes_marked(f, marks) {
        Ok(())
    } else {
        Err(Refusal::BadNodes)
    }
}

// those of the check, a string that leaves text, a place used against its mark: the lowest
fn against_case(s: &[u8], marks: &[u8], f: &[u8]) -> Result<(), Refusal>
    requires s_value { bodies s.now ≡ true }
    requires f_value { bodies f.now ≡ true }
    requires f_value_2 { mosts f.now ≡ true }
    ensures { result ≡ against_as (case_refusal s.now marks.now f.now) }
{
    if !strings_in_text(s) {
        return Err(Refusal::BadStrings);
    }
    match check(f) {
        Ok(_) => against_marks(marks, f, true),
        Err(r) => {
            // a broken rule of nodes waits for the marks of points
            if number(r) < 6 {
                Err(r)
            } else {
                against_marks(marks, f, false)
            }
        }
    }
}

// a case over the output, if it fits
fn write_out(f: &[u8], out: &mut [u8]) -> Result<usize, Refusal>
    requires { bodies f.now ≡ true }
    ensures { WritesOut f.now out.old out.new result }
{
    if out.len() < f.len() {
        return Err(Refusal::OutputTooShort);
    }
    write_case(out, f);
    Ok(f.len())
}

// a finished case checked, then written
fn write_checked(s: &[u8], marks: &[u8], f: &[u8], out: &mut [u8]) -> Result<usize, Refusal>
    requires s_value { bodies s.now ≡ true }
    requires f_value { mosts f.now ≡ true }
    requires f_value_2 { f.now ≡ finished s.now marks.now }
    ensures { WritesChecked s.now marks.now out.old out.new result }
{
    // a match: an edit in must-fail/ gives 14 for each refusal here, which `?` leaves no place for
    match against_case(s, marks, f) {
        Ok(()) => write_out(f, out),
        Err(r) => Err(r),
    }
}

// how many bytes were written
pub fn write(s: &[u8], marks: &[u8], room: &mut [u8], out: &mut [u8]) -> Result<usize, Refusal>
    ensures { Writes s.now marks.now room.old room.new out.old out.new result }
{
    let size = make(s, marks, room)?;
    write_checked(s, marks, &room[..size], out)
}
