// Reads the packed JSON texts, each with its refusal and places, and says which gave another than is listed.

#![tactic(auto)]

ghost use Rattle.std.specs.Prelude.{◌≡◌, length};

use jsoncheck::{cells_for, check_log};
use jsontext::{Bad, Fault};
use std::io;
use tables::{wide, word_at};

fn number_of(w: Fault) -> usize {
    match w {
        Fault::NotJson => 20,
        Fault::RepeatedName => 21,
        Fault::BadNumber => 22,
        Fault::BadField => 23,
        Fault::TooDeep => 24,
    }
}

// a refusal, its place, and the place of the first of two equal names; zeros for a good text
#[derive(Clone, Copy, PartialEq, Eq)]
struct Answer {
    number: usize,
    place: usize,
    first: usize,
}

// 10 where there are too few cells for the names
fn answer_of(text: &[u8], names: &mut [u64]) -> Answer {
    if names.len() < cells_for(text.len()) {
        return Answer {
            number: 10,
            place: 0,
            first: 0,
        };
    }
    match check_log(text, names) {
        Ok(_) => Answer {
            number: 0,
            place: 0,
            first: 0,
        },
        Err(Bad { fault, at, first }) => Answer {
            number: number_of(fault),
            place: at,
            first,
        },
    }
}

fn tell(rt: &impl Print, k: u64, a: Answer) -> io::Result<()> {
    println!(rt; "text {k} gave {} {} {}", a.number, a.place, a.first)
}

// whether a text gave what is listed; else it is told
fn is_listed(rt: &impl Print, k: u64, a: Answer, listed: Answer) -> io::Result<bool> {
    if a != listed {
        tell(rt, k, a)?;
    }
    Ok(a == listed)
}

fn report(rt: &impl Print, texts: u64, wrong: u64) -> io::Result<()> {
    println!(rt; "texts {texts}, other than listed {wrong}")
}

// a list: how many texts; then of each its refusal, its places, its length, its bytes, and zeros up to a whole word
fn read_all(rt: &impl Print, list: &[u8], names: &mut [u64]) -> io::Result<()> {
    let words = list.len() / 4;
    let mut texts: u64 = 0;
    let mut wrong: u64 = 0;
    let mut at = 1;
    while at + 4 <= words {
        let listed = Answer {
            number: wide(word_at(list, at)),
            place: wide(word_at(list, at + 1)),
            first: wide(word_at(list, at + 2)),
        };
        let size = wide(word_at(list, at + 3));
        let start = 4 * (at + 4);
        if list.len() - start < size {
            return Ok(());
        }
        let end = start + size;
        let a = answer_of(&list[start..end], names);
        if !is_listed(rt, texts, a, listed)? {
            wrong = wrong.wrapping_add(1);
        }
        texts = texts.wrapping_add(1);
        at += 4 + (size + 3) / 4;
    }
    report(rt, texts, wrong)
}

// room for the list, and for the names of open objects; the promises of their lengths are for lending them
fn room() -> [u8; 262144]
    ensures { 262144 ≡ length result }
{
    intake::zeros()
}

fn cells() -> [u64; 4096]
    ensures { 4096 ≡ length result }
{
    [0; 4096]
}

fn main(rt: HostRuntime) -> io::Result<()> {
    let mut list = room();
    match intake::load(&rt, "json-texts.bin", &mut list)? {
        Some(n) => {
            let mut names = cells();
            read_all(&rt, &list[..n], &mut names)
        }
        None => Ok(()),
    }
}
