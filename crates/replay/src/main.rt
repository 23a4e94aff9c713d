// Puts every call of the judge's list (docs/JUDGE-LIST.md) to the three public calls, and says how many answer otherwise than listed.

#![tactic(auto)]

mod ask;
mod buffers;
mod input;
mod listed;
mod report;
mod said;
mod tally;

use std::fs::File;
use std::io;
use std::rt::Files;

fn replay<R: Files + Print>(rt: &R, list: R::File) -> io::Result<()> {
    let mut list = list;
    let header = input::take_header(&mut list)?;
    let t = ask::cases(rt, &mut list, header.cases)?;
    let ended = input::is_at_end(&mut list)?;
    report::report(rt, header, t, ended)
}

fn main(rt: HostRuntime) -> io::Result<()> {
    let path = "judge-answers.bin";
    match File::open(&rt, path) {
        Ok(list) => replay(&rt, list),
        Err(error) => eprintln!(rt; "{path}: {error}"),
    }
}
