// Checks the packed rule files, each of which breaks a rule of the check or just keeps it, and says how many gave which refusal.

#![tactic(auto)]

ghost use Rattle.std.specs.Prelude.{◌<◌};

use casecheck::check;
use std::io;
use tables::word_at;

// what the check says of a file: 0 where it passes
fn answer_number(file: &[u8]) -> usize
    ensures { result < 16 }
{
    match check(file) {
        Ok(_) => 0,
        Err(refusal) => refusals::number(refusal) as usize,
    }
}

// how many files gave which answer, and how many another than listed
fn report(
    rt: &impl Print,
    counts: &[u64; 16],
    files: u64,
    listed: u32,
    wrong: u64,
) -> io::Result<()> {
    println!(rt; "refusal files")?;
    for refusal in 0..7 {
        println!(rt; "{refusal} {}", counts[refusal])?;
    }
    println!(rt; "files {files} of {listed}, other than listed {wrong}")
}

// a list: how many files; then of each what the check must say, its length, its bytes, and zeros up to a whole word
fn check_all(rt: &impl Print, list: &[u8]) -> io::Result<()> {
    let words = list.len() / 4;
    if words == 0 {
        return Ok(());
    }
    let mut counts = [0u64; 16];
    let mut files = 0u64;
    let mut wrong = 0u64;
    let mut at = 1;
    // a while: how far the next file lies goes by this one's length, which no iterator says plainer
    while at + 2 <= words {
        let expected = word_at(list, at) as usize;
        let size = word_at(list, at + 1) as usize;
        let start = 4 * (at + 2);
        if list.len() - start < size {
            return Ok(());
        }
        let answer = answer_number(&list[start..start + size]);
        counts[answer] = counts[answer].saturating_add(1);
        files = files.saturating_add(1);
        wrong = wrong.saturating_add(u64::from(answer != expected));
        at += 2 + size.div_ceil(4);
    }
    report(rt, &counts, files, word_at(list, 0), wrong)
}

fn main(rt: HostRuntime) -> io::Result<()> {
    let mut list = intake::zeros::<589824>();
    let Some(n) = intake::load(&rt, "rule-files.bin", &mut list)? else {
        return Ok(());
    };
    check_all(&rt, &list[..n])
}
