// The Rust's list of readings and equalities (docs/JUDGE-LIST.md), replayed over its case.
ghost use Rattle.std.specs.Prelude.{◌<◌, ◌^◌};
ghost use Rattle.meaning.specs.Check.{Checked};

use meaning::{StrNo, ValNo};
use std::io;
use tables::halves;
use tables::packed::{byte, word};

// how many bytes of the case stand in the list, after its length
fn same_bytes(s: &[u8], list: &[u8]) -> usize {
    s.iter()
        .zip(4..)
        .filter(|(b, i)| **b == byte(list, *i))
        .count()
}

// whether string k reads as the list has it at word `at`
fn reading(s: &[u8], list: &[u8], at: usize, k: u32) -> bool
    requires checked { Checked s.now }
    requires at_bound { at < 2 ^ 40 }
{
    let reads = word(list, at);
    match numbers::cedar_decimal_value(tables::text_of(s, StrNo(k))) {
        Some(bits) => reads == 1 && bits == halves(word(list, at + 1), word(list, at + 2)),
        None => reads == 0,
    }
}

// how many of n readings are as the list has them
fn readings(s: &[u8], list: &[u8], first: usize, n: u32) -> usize
    requires checked { Checked s.now }
    requires first_bound { first < 2 ^ 36 }
{
    (0..n)
        .filter(|k| reading(s, list, first + 3 * *k as usize, *k))
        .count()
}

// how many pairs are equal, and how many are as the list has them: as values, as bindings
#[derive(Clone, Copy)]
struct Tally {
    equal: usize,
    same: usize,
    bound: usize,
}

impl Tally {
    // a pair, and whether the list has it as equal
    fn count(&mut self, s: &[u8], a: ValNo, b: ValNo, listed: bool)
        requires { Checked s.now }
    {
        let equal = equality::dom_eq(s, a, b);
        let x = equality::binding_of(s, a);
        let y = equality::binding_of(s, b);
        let bound = equality::binding_eq(s, x, y);
        self.equal = self.equal.saturating_add(usize::from(equal));
        self.same = self.same.saturating_add(usize::from(equal == listed));
        self.bound = self.bound.saturating_add(usize::from(bound == listed));
    }
}

// each of n values with each
fn pairs(s: &[u8], list: &[u8], first: usize, n: u32) -> Tally
    requires { Checked s.now }
{
    let mut tally = Tally {
        equal: 0,
        same: 0,
        bound: 0,
    };
    let mut at = first;
    for a in 0..n {
        for b in 0..n {
            tally.count(s, ValNo(a), ValNo(b), byte(list, at) == 1);
            at = at.saturating_add(1);
        }
    }
    tally
}

pub fn replay(rt: &impl Print, s: &[u8], list: &[u8]) -> io::Result<()>
    requires { Checked s.now }
{
    let length = word(list, 0);
    println!(rt; "bytes of the list's case: {length}")?;
    println!(rt; "of them as here: {}", same_bytes(s, list))?;
    let start = 1 + (length as usize + 3) / 4;
    let strings = word(list, start);
    println!(rt; "texts read as decimals: {strings}")?;
    let read = readings(s, list, start + 1, strings);
    println!(rt; "of them as the Rust reads them: {read}")?;
    let values = start + 1 + 3 * strings as usize;
    println!(rt; "pairs of values: {}", word(list, values))?;
    let tally = pairs(s, list, 4 * (values + 1), tables::size_of(s, 1) / 16);
    println!(rt; "of them as the Rust compares them: {}", tally.same)?;
    println!(rt; "as bindings: {}", tally.bound)?;
    println!(rt; "equal: {}", tally.equal)
}
