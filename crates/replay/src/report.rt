// What the program writes: how many calls were compared and how many differ, by kind and by refusal, beside what the list's header counts.
use crate::input::Header;
use crate::tally::Tally;
use std::io;

fn text(rt: &impl Print, t: &str) -> io::Result<()> {
    rt.print(t)
}

fn number(rt: &impl Print, n: u64) -> io::Result<()> {
    rt.print(n)
}

fn line(rt: &impl Print, compared: u64, differ: u64) -> io::Result<()> {
    println!(rt; " {compared} {differ}")
}

// the call after those compared answers otherwise
pub fn differs(rt: &impl Print, t: Tally) -> io::Result<()> {
    text(rt, "differs: case ")?;
    number(rt, t.cases)?;
    text(rt, ", after ")?;
    number(rt, t.calls)?;
    text(rt, " calls\n")
}

fn kinds(rt: &impl Print, t: Tally) -> io::Result<()> {
    text(rt, "call compared differ\n")?;
    text(rt, "check")?;
    line(rt, t.kinds[0], t.kinds_differ[0])?;
    text(rt, "ask")?;
    line(rt, t.kinds[1], t.kinds_differ[1])?;
    text(rt, "rows")?;
    line(rt, t.kinds[2], t.kinds_differ[2])
}

fn refusals(rt: &impl Print, t: Tally) -> io::Result<()> {
    text(rt, "refusal compared differ\n")?;
    for r in 0..14 {
        number(rt, r as u64)?;
        line(rt, t.refusals[r], t.refusals_differ[r])?;
    }
    Ok(())
}

fn counted(rt: &impl Print, what: &str, n: u64, listed: u32) -> io::Result<()> {
    println!(rt; "{what} {n} of {listed}")
}

// whether the list could be read to its end, and had what its header counts
fn is_complete(listed: Header, t: Tally, ended: bool) -> bool {
    listed.whole && t.whole && t.calls == listed.calls as u64 && ended
}

pub fn report(rt: &impl Print, listed: Header, t: Tally, ended: bool) -> io::Result<()> {
    kinds(rt, t)?;
    refusals(rt, t)?;
    counted(rt, "cases", t.cases, listed.cases)?;
    counted(rt, "calls", t.calls, listed.calls)?;
    if is_complete(listed, t, ended) {
        return text(rt, "the list was read to its end\n");
    }
    text(rt, "the list is malformed after ")?;
    number(rt, t.calls)?;
    text(rt, " calls\n")
}
