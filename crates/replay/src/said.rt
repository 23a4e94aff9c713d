// What a public call says, in the list's terms.
use crate::listed::Listed;
use calls::{Answer, Refused, Spent};
use meaning::{Limits, NodeNo};

// a refusal's number or 0, the answer's 64 bits, steps spent, greatest number of rows held, and 1 where the answer is a number
#[derive(Clone, Copy)]
pub struct Said {
    pub refusal: usize,
    pub answer: u64,
    pub steps: u64,
    pub held: u64,
    pub sort: u64,
}

fn gives(answer: u64, sort: u64, spent: Spent) -> Said {
    Said {
        refusal: 0,
        answer,
        steps: spent.steps,
        held: spent.most as u64,
        sort,
    }
}

fn refuses(refused: Refused) -> Said {
    Said {
        refusal: refusals::number(refused.refusal) as usize,
        answer: 0,
        steps: refused.spent.steps,
        held: refused.spent.most as u64,
        sort: 0,
    }
}

// a check takes no steps
fn by_check(file: &[u8]) -> Said {
    let spent = Spent { steps: 0, most: 0 };
    match calls::check(file) {
        Ok(_) => gives(0, 0, spent),
        Err(refusal) => refuses(Refused { refusal, spent }),
    }
}

fn of_answer(said: calls::Said<Answer>) -> Said {
    match said {
        Ok((Answer::Verdict(yes), spent)) => gives(u64::from(yes), 0, spent),
        Ok((Answer::Number(bits), spent)) => gives(bits, 1, spent),
        Err(refused) => refuses(refused),
    }
}

fn of_rows(said: calls::Said<usize>) -> Said {
    match said {
        Ok((n, spent)) => gives(n as u64, 0, spent),
        Err(refused) => refuses(refused),
    }
}

// the call put to the public call of its kind
pub fn said_by(
    file: &[u8],
    c: Listed,
    start: &[u64],
    binders: &[u32],
    work: &mut [u64],
    output: &mut [u64],
) -> Said {
    let point = c.point;
    let node = NodeNo(c.node);
    let limits = Limits {
        steps: c.limit,
        room: c.room,
    };
    let kind = c.kind;
    match kind {
        0 => by_check(file),
        1 => of_answer(calls::ask(file, point, node, start, limits, work)),
        _ => of_rows(calls::rows(file, point, node, start, limits, binders, work, output)),
    }
}
