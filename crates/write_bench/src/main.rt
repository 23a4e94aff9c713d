// Writes the bench case of data/unsorted.bin and its marks twice. Into an output that has room: says whether what is written passes the check and is data/bench.bin byte for byte. Into one that is a byte short: says the refusal, and whether the output is as it was.

#![tactic(auto)]

ghost use Rattle.std.specs.Prelude.{◌≡◌, ◌≤◌, length, IfOk};

use casewrite::write;
use std::io;
use std::rt::Files;

// room for a file; the promise of its length is for lending it
fn room() -> [u8; 4096]
    ensures { 4096 ≡ length result }
{
    [0; 4096]
}

fn say(rt: &impl Print, yes: bool) -> io::Result<()> {
    rt.print(if yes { "yes\n" } else { "no\n" })
}

fn tell(rt: &impl Print, written: &[u8], stored: &[u8]) -> io::Result<()> {
    rt.print("passes the check: ")?;
    say(rt, casecheck::check(written).is_ok())?;
    rt.print("as stored: ")?;
    say(rt, written == stored)
}

fn report(rt: &impl Print, out: &[u8], size: usize, stored: &[u8]) -> io::Result<()> {
    if out.len() < size {
        return Ok(());
    }
    println!(rt; "bytes: {size}")?;
    tell(rt, &out[..size], stored)
}

fn write_and_report(
    rt: &impl Print,
    unsorted: &[u8],
    marks: &[u8],
    stored: &[u8],
    out: &mut [u8],
) -> io::Result<()> {
    let mut lent: [u8; 4096] = [0; 4096];
    match write(unsorted, marks, &mut lent, out) {
        Ok(size) => report(rt, out, size, stored),
        Err(refusal) => println!(rt; "refused {}", refusals::number(refusal)),
    }
}

// into an output that is a byte shorter than the stored case, and as it was before
fn write_short(
    rt: &impl Print,
    unsorted: &[u8],
    marks: &[u8],
    stored: &[u8],
    out: &mut [u8],
    before: &[u8],
) -> io::Result<()> {
    if stored.is_empty() || out.len() < stored.len() {
        return Ok(());
    }
    let short = stored.len() - 1;
    write_and_report(rt, unsorted, marks, stored, &mut out[..short])?;
    rt.print("output as it was: ")?;
    say(rt, *out == *before)
}

// as much of a file as there is room for: how many bytes, 0 where it cannot be read
fn read<R: Files + Eprint>(rt: &R, path: &str, into: &mut [u8]) -> io::Result<usize>
    ensures { IfOk result (λ n. n ≤ length into.new) }
{
    Ok(intake::load(rt, path, into)?.unwrap_or(0))
}

fn main(rt: HostRuntime) -> io::Result<()> {
    let mut unsorted = room();
    let n = read(&rt, "unsorted.bin", &mut unsorted)?;
    let mut marks = room();
    let m = read(&rt, "marks.bin", &mut marks)?;
    let mut stored = room();
    let k = read(&rt, "bench.bin", &mut stored)?;
    let mut out = room();
    write_and_report(&rt, &unsorted[..n], &marks[..m], &stored[..k], &mut out)?;
    let mut other = room();
    write_short(
        &rt,
        &unsorted[..n],
        &marks[..m],
        &stored[..k],
        &mut other,
        &room(),
    )
}
