// 7 to 10: what is against a call of a checked case, or what its walk starts with.

#![tactic(auto)]

mod start;

ghost use Rattle.std.specs.Prelude.{◌≡◌, Bool, not, ◌≤◌};
ghost use Rattle.meaning.specs.Calls.{is_condition, is_aggregate, answerable};
ghost use Rattle.meaning.specs.Check.{Checked};
ghost use Rattle.opening.specs.Opening.{wanted_for, in_limits, Opens};

use evaluator::Call;
use meaning::{Env, Limits, Node, NodeNo, Refusal};
use start::start_env;
use stringcheck::point_count;

// the nodes that a call is about
#[derive(Clone, Copy)]
pub enum Wanted {
    Answerable,
    Condition,
    LooksBack,
}

// where nothing is against a call: the environment, what stays the same during the walk, and its cells of the workspace
#[derive(Clone, Copy)]
pub struct Opening {
    pub env: Env,
    pub call: Call,
    pub cells: usize,
}

fn is_wanted(wanted: Wanted, node: Node) -> bool
    ensures { ◌≡◌ {A = Bool} result (wanted_for wanted node) }
{
    match wanted {
        Wanted::Answerable => is_answerable(node),
        Wanted::Condition => is_condition(node),
        Wanted::LooksBack => carried::looks_back(node),
    }
}

fn is_condition(node: Node) -> bool
    ensures { ◌≡◌ {A = Bool} result (is_condition node) }
{
    matches!(
        node,
        Node::And(..)
            | Node::Or(..)
            | Node::Not(..)
            | Node::Formerly(..)
            | Node::Previous(..)
            | Node::Since(..)
            | Node::Predicate { .. }
            | Node::Comparison(..)
            | Node::Exists(..)
            | Node::Tp(..)
    )
}

pub fn is_aggregate(node: Node) -> bool
    ensures { ◌≡◌ {A = Bool} result (is_aggregate node) }
{
    matches!(node, Node::Sum { .. } | Node::Count { .. })
}

fn is_answerable(node: Node) -> bool
    ensures { ◌≡◌ {A = Bool} result (answerable node) }
{
    is_condition(node) || is_aggregate(node)
}

// limits above their most, or a workspace too short for the rows
fn beyond(vars: usize, limits: Limits, cells: usize) -> bool
    requires { vars ≤ 16 }
    ensures { ◌≡◌ {A = Bool} result (not (in_limits vars limits cells)) }
{
    1000000000 < limits.steps || (16384 < limits.room || cells < 2 * vars * limits.room)
}

// the lowest of 7 to 10 that is broken, or none
pub fn open(
    s: &[u8],
    wanted: Wanted,
    point: usize,
    node: NodeNo,
    start: &[u64],
    limits: Limits,
    work: &[u64],
) -> Result<Opening, Refusal>
    requires { Checked s.now }
    ensures { Opens (wanted_for wanted) (record { file = s.now; point = point; node = node.0; start = start.now; limits = limits; workspace = work.now }) result }
{
    if point_count(s) as usize <= point {
        return Err(Refusal::NoSuchPoint);
    }
    // beyond the table a node is Broken, which no call is about
    let asked = tables::node_at(s, node);
    if !is_wanted(wanted, asked) {
        return Err(Refusal::NoSuchNode);
    }
    let Some(env) = start_env(s, start) else {
        return Err(Refusal::BadStart);
    };
    let vars = env.count;
    if beyond(vars, limits, work.len()) {
        return Err(Refusal::BadLimits);
    }
    let call = Call {
        limits,
        vars,
        asked: point,
    };
    let cells = 2 * vars * limits.room;
    Ok(Opening { env, call, cells })
}
