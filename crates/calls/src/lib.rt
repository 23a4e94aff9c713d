// What the outside calls: the check of a case, the answer of a condition or an aggregate, the rows of a condition.

#![tactic(auto)]

pub mod checked;

ghost use Rattle.std.specs.Prelude.{◌≡◌};
ghost use Rattle.calls.specs.Promises.{call_of, early, stopped_as, spent_in, Checks, Answers, Rowed, Carrying};

use casecheck::Contents;
use meaning::{Limits, Meter, NodeNo, Refusal};
use rows::Stopped;

// the steps spent, and the greatest number of rows held
#[derive(Clone, Copy)]
pub struct Spent {
    pub steps: u64,
    pub most: usize,
}

// a refusal, and what was spent until it
#[derive(Clone, Copy)]
pub struct Refused {
    pub refusal: Refusal,
    pub spent: Spent,
}

pub type Said<T> = Result<(T, Spent), Refused>;

// of a condition yes or no, of an aggregate its number's 64 bits
#[derive(Clone, Copy)]
pub enum Answer {
    Verdict(bool),
    Number(u64),
}

// refused before a walk
impl From<Refusal> for Refused {
    ghost from_gives = { λ n e. e ≡ early n };

    fn from(refusal: Refusal) -> Refused {
        Refused {
            refusal,
            spent: Spent { steps: 0, most: 0 },
        }
    }
}

impl From<Stopped> for Refused {
    ghost from_gives = { λ z e. e ≡ stopped_as z };

    fn from(stopped: Stopped) -> Refused {
        Refused {
            refusal: stopped.refusal,
            spent: cost_of(stopped.meter),
        }
    }
}

fn cost_of(m: Meter) -> Spent
    ensures { result ≡ spent_in m }
{
    Spent {
        steps: m.steps,
        most: m.most,
    }
}

pub fn check(file: &[u8]) -> Result<Contents, Refusal>
    ensures { Checks file.now result }
{
    casecheck::check(file)
}

pub fn ask(
    file: &[u8],
    point: usize,
    node: NodeNo,
    start: &[u64],
    limits: Limits,
    work: &mut [u64],
) -> Said<Answer>
    ensures { Answers (call_of file.now point node.0 start.now limits work.old) work.new result }
{
    casecheck::check(file)?;
    checked::ask(file, point, node, start, limits, work)
}

// how many rows the output has
pub fn rows(
    file: &[u8],
    point: usize,
    node: NodeNo,
    start: &[u64],
    limits: Limits,
    binders: &[u32],
    work: &mut [u64],
    output: &mut [u64],
) -> Said<usize>
    ensures { Rowed (call_of file.now point node.0 start.now limits work.old) binders.now output.old work.new output.new result }
{
    casecheck::check(file)?;
    checked::rows(file, point, node, start, limits, binders, work, output)
}

pub fn carried(
    file: &[u8],
    point: usize,
    node: NodeNo,
    start: &[u64],
    limits: Limits,
    work: &mut [u64],
    list: &mut [u64],
) -> Said<carried::Carried>
    ensures { Carrying (call_of file.now point node.0 start.now limits work.old) list.old work.new list.new result }
{
    casecheck::check(file)?;
    checked::carried(file, point, node, start, limits, work, list)
}
