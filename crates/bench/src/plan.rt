// What is asked of a case, or why nothing is.
ghost use Rattle.std.specs.Prelude.{◌≡◌, Bool};
ghost use Rattle.meaning.specs.Tests.{within};
ghost use Rattle.meaning.specs.Case.{node_at};
ghost use Rattle.meaning.specs.Check.{Checked};
ghost use Rattle.meaning.specs.Calls.{answerable};
ghost use Rattle.casecheck.specs.Answer.{contents_of};
ghost use Rattle.bench.specs.Table.{plan_checked, plan_of};

use casecheck::Contents;
use meaning::{NodeNo, Refusal};

// the last node, at so many points of a case with so many variables
#[derive(Clone, Copy)]
pub struct Asking {
    pub node: NodeNo,
    pub points: usize,
    pub vars: usize,
}

fn is_within(kind: u32, least: u32, most: u32) -> bool
    ensures { ◌≡◌ {A = Bool} result (within least most kind) }
{
    least <= kind && kind <= most
}

// a condition or an aggregate, by its kind
fn is_answerable(case: &[u8], node: NodeNo) -> bool
    requires { Checked case.now }
    ensures { ◌≡◌ {A = Bool} result (answerable (node_at case.now node.0)) }
{
    let kind = tables::node_word(case, node, 0);
    is_within(kind, 1, 10) || is_within(kind, 30, 31)
}

fn plan_checked(case: &[u8], contents: Contents) -> Result<Asking, Refusal>
    requires checked { Checked case.now }
    requires contents_value { contents ≡ contents_of case.now }
    ensures { result ≡ plan_checked case.now }
{
    if contents.nodes == 0 {
        return Err(Refusal::NoSuchNode);
    }
    let node = NodeNo(contents.nodes - 1);
    if !is_answerable(case, node) {
        return Err(Refusal::NoSuchNode);
    }
    Ok(Asking {
        node,
        points: contents.points as usize,
        vars: contents.vars as usize,
    })
}

pub fn plan_of(case: &[u8]) -> Result<Asking, Refusal>
    ensures { result ≡ plan_of case.now }
{
    if 65536 < case.len() {
        return Err(Refusal::TooLarge);
    }
    match calls::check(case) {
        Ok(contents) => plan_checked(case, contents),
        Err(refusal) => Err(refusal),
    }
}
