// Arithmetic with arithmetic on both sides: nodes may be shared, and a node's Int is computed once.
ghost use Rattle.meaning.specs.Check.{Checked};
ghost use Rattle.rows.specs.Slots.{Sized};
ghost use Rattle.matching.specs.Asking.{term, sides, Tells, TellsOf, Known, Settles};

use super::sides::{arithmetic, is_int, leaf_of};
use meaning::{ArithOp, Binding, Env, Node, NodeNo};
use tables::{node_word, wide};

// as many nodes as a case may have (`nodes_most` in specs/Asking)
const NODES: usize = 1024;

// the kind of an Arithmetic node
const ARITHMETIC: u32 = 26;

// term t, up to the first aggregate. What is no Int ends it, so only Ints are kept
#[cycle(settle_settle_sides)]
fn settle(
    s: &[u8],
    asked: usize,
    env: Env,
    t: NodeNo,
    marks: &mut [u8; NODES],
    ints: &mut [u64; NODES],
) -> Option<Binding>
    requires checked { Checked s.now }
    requires sized { Sized env }
    requires known { Known s.now asked env marks.old ints.old }
    ensures { Settles s.now asked env (term t.0) marks.new ints.new result }
{
    let node = tables::node_at(s, t);
    match node {
        Node::Aggregate(_) => None,
        Node::Arithmetic(op, l, r) => {
            let at = wide(t.0);
            if NODES <= at {
                return None;
            }
            if marks[at] == 1 {
                let bits = ints[at];
                return Some(Binding { tag: 1, bits });
            }
            let v = settle_sides(s, asked, env, op, l, r, marks, ints)?;
            if v.tag == 1 {
                marks[at] = 1;
                ints[at] = v.bits;
                return Some(v);
            }
            Some(v)
        }
        _ => Some(leaf_of(s, asked, env, node)),
    }
}

// two sides combined, left before right
#[cycle(settle_settle_sides)]
fn settle_sides(
    s: &[u8],
    asked: usize,
    env: Env,
    op: ArithOp,
    l: NodeNo,
    r: NodeNo,
    marks: &mut [u8; NODES],
    ints: &mut [u64; NODES],
) -> Option<Binding>
    requires checked { Checked s.now }
    requires sized { Sized env }
    requires known { Known s.now asked env marks.old ints.old }
    ensures { Settles s.now asked env (sides op l.0 r.0) marks.new ints.new result }
{
    let left = settle(s, asked, env, l, marks, ints)?;
    if !is_int(left) {
        return Some(Binding { tag: 0, bits: 0 });
    }
    let right = settle(s, asked, env, r, marks, ints)?;
    Some(arithmetic(op, left, right))
}

// with a new table
fn settle_once(
    s: &[u8],
    asked: usize,
    env: Env,
    op: ArithOp,
    l: NodeNo,
    r: NodeNo,
) -> Option<Binding>
    requires checked { Checked s.now }
    requires sized { Sized env }
    ensures { TellsOf s.now asked env (sides op l.0 r.0) result }
{
    let mut marks = [0u8; NODES];
    let mut ints = [0u64; NODES];
    settle_sides(s, asked, env, op, l, r, &mut marks, &mut ints)
}

// a side is arithmetic
pub fn nests(s: &[u8], l: NodeNo, r: NodeNo) -> bool
    requires { Checked s.now }
{
    node_word(s, l, 0) == ARITHMETIC || node_word(s, r, 0) == ARITHMETIC
}

// both sides are arithmetic: only there can a term below be met twice for each time above
fn branches(s: &[u8], l: NodeNo, r: NodeNo) -> bool
    requires { Checked s.now }
{
    node_word(s, l, 0) == ARITHMETIC && node_word(s, r, 0) == ARITHMETIC
}

// what term t resolves to with no walk: left before right, open where it comes to an aggregate
pub fn calculated(s: &[u8], asked: usize, env: Env, t: NodeNo) -> Option<Binding>
    requires checked { Checked s.now }
    requires sized { Sized env }
    ensures { Tells s.now asked env t.0 result }
{
    let node = tables::node_at(s, t);
    match node {
        Node::Aggregate(_) => None,
        Node::Arithmetic(op, l, r) => {
            if branches(s, l, r) {
                return settle_once(s, asked, env, op, l, r);
            }
            let a = calculated(s, asked, env, l)?;
            if !is_int(a) {
                return Some(Binding { tag: 0, bits: 0 });
            }
            let b = calculated(s, asked, env, r)?;
            Some(arithmetic(op, a, b))
        }
        _ => Some(leaf_of(s, asked, env, node)),
    }
}
