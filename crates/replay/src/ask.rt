// The list's calls, each put to the public calls and compared with what the list says.
ghost use Rattle.std.specs.Prelude.{◌≡◌, length};
ghost use Rattle.replay.specs.Known.{Known};

use crate::input::{take, take_word};
use crate::listed::{Listed, answer_at, binders_at, filled_at, is_known, listed_call, size};
use crate::said::{Said, said_by};
use crate::tally::{Tally, another_case, broken, compared, nothing};
use crate::{buffers, report};
use std::io;
use std::io::Read;
use tables::packed::cell;
use tables::wide;

// refusal, answer, both numbers and the answer's sort; `parts` is what the list has of the call after its thirteen words
fn is_said(parts: &[u8], c: Listed, said: Said) -> bool
    requires { Known c }
{
    let at = answer_at(c);
    said.refusal == c.refusal
        && said.answer == cell(parts, at)
        && said.steps == cell(parts, at + 2)
        && said.held == cell(parts, at + 4)
        && said.sort == cell(parts, at + 6)
}

// fills the buffers, asks, and compares all with the answer listed
fn is_answered<'a>(
    parts: &'a [u8],
    file: &'a [u8],
    c: Listed,
    start: &[u64],
    binders: &[u32],
    work: &mut [u64],
    output: &mut [u64],
) -> bool
    requires { Known c }
{
    buffers::fill_cells(work, buffers::WORKSPACE_FILL);
    buffers::fill_cells(output, buffers::OUTPUT_FILL);
    let said = said_by(file, c, start, binders, work, output);
    if !is_said(parts, c, said) {
        return false;
    }
    if !buffers::is_worked(work, c.cleared) {
        return false;
    }
    buffers::is_put(parts, filled_at(c), output, c.filled)
}

// puts a call on a file to the public calls: whether all is as listed
fn is_as_listed<'a>(parts: &'a [u8], file: &'a [u8], c: Listed) -> bool
    requires { Known c }
{
    let cells = c.start;
    let start = buffers::cells_at(parts, 0);
    let names = c.binders;
    let binders = buffers::words_at(parts, binders_at(c));
    let room = c.workspace;
    let mut work = [0u64; 1600];
    let out = c.output;
    let mut output = [0u64; 1600];
    is_answered(
        parts,
        file,
        c,
        &start[..cells],
        &binders[..names],
        &mut work[..room],
        &mut output[..out],
    )
}

// the list's next call, on a file
fn call<R: Read>(rt: &impl Print, list: &mut R, file: &[u8], t: Tally) -> io::Result<Tally> {
    let mut words = [0u8; 52];
    if !take(list, &mut words, 52)? {
        return Ok(broken(t));
    }
    let c = listed_call(&words);
    if !is_known(c) {
        return Ok(broken(t));
    }
    let n = 4 * size(c);
    let mut parts = [0u8; 4096];
    if !take(list, &mut parts, n)? {
        return Ok(broken(t));
    }
    let same = is_as_listed(&parts[..n], file, c);
    if !same {
        report::differs(rt, t)?;
    }
    Ok(compared(t, c.kind, c.refusal, same))
}

// the list's next n calls, on a file
fn calls<R: Read>(
    rt: &impl Print,
    list: &mut R,
    file: &[u8],
    n: u32,
    before: Tally,
) -> io::Result<Tally> {
    let mut t = before;
    for _k in 0..n {
        t = call(rt, list, file, t)?;
        if !t.whole {
            return Ok(t);
        }
    }
    Ok(t)
}

fn calls_on<R: Read>(rt: &impl Print, list: &mut R, file: &[u8], t: Tally) -> io::Result<Tally> {
    match take_word(list)? {
        Some(n) => calls(rt, list, file, n, another_case(t)),
        None => Ok(broken(t)),
    }
}

// room for a case
fn room() -> [u8; 16384]
    ensures { 16384 ≡ length result }
{
    [0; 16384]
}

// a case of so many bytes, filled up to a whole number of words, and its calls
fn case_of<R: Read>(rt: &impl Print, list: &mut R, bytes: u32, t: Tally) -> io::Result<Tally> {
    let n = wide(bytes);
    if 16384 < n {
        return Ok(broken(t));
    }
    let filled_up = 4 * ((n + 3) / 4);
    let mut file = room();
    if !take(list, &mut file, filled_up)? {
        return Ok(broken(t));
    }
    calls_on(rt, list, &file[..n], t)
}

fn case<R: Read>(rt: &impl Print, list: &mut R, t: Tally) -> io::Result<Tally> {
    match take_word(list)? {
        Some(bytes) => case_of(rt, list, bytes, t),
        None => Ok(broken(t)),
    }
}

// the list's next n cases
pub fn cases<R: Read>(rt: &impl Print, list: &mut R, n: u32) -> io::Result<Tally> {
    let mut t = nothing();
    for _k in 0..n {
        t = case(rt, list, t)?;
        if !t.whole {
            return Ok(t);
        }
    }
    Ok(t)
}
