// Leaf terms, and the two sides of a comparison or of arithmetic.
ghost use Rattle.std.specs.Prelude.{◌≡◌, Bool, true};
ghost use Rattle.meaning.specs.Tests.{is_some};
ghost use Rattle.meaning.specs.Check.{Checked};
ghost use Rattle.meaning.specs.Case.{case_of, node_at};
ghost use Rattle.meaning.specs.Rows.{in_cells};
ghost use Rattle.meaning.specs.Meaning.{both, compared};
ghost use Rattle.numbers.specs.Numbers.{orders};
ghost use Rattle.rows.specs.Slots.{Sized};
ghost use Rattle.matching.specs.Asking.{Standing, leaf_value, Fixes, unbound_at, variable_of, integer_in, combined};

use meaning::{ArithOp, Binding, CmpOp, Env, Node, NodeNo};
use tables::wide;

// ---- terms

// what a node that is no variable resolves to without a walk; context and scope come from the point asked about
pub fn fixed_of(s: &[u8], asked: usize, node: Node) -> Binding
    requires checked { Checked s.now }
    requires standing { Standing s.now node }
    ensures { Fixes s.now asked node (in_cells result.tag result.bits) }
{
    match node {
        Node::Literal(v) => equality::binding_of(s, v),
        Node::Context(path) => lookup::context_at(s, asked, path),
        Node::Scope(root, path) => lookup::scope_at(s, asked, root, path),
        _ => Binding { tag: 0, bits: 0 },
    }
}

// what a node resolves to without a walk
pub fn leaf_of(s: &[u8], asked: usize, env: Env, node: Node) -> Binding
    requires checked { Checked s.now }
    requires sized { Sized env }
    requires standing { Standing s.now node }
    ensures { in_cells result.tag result.bits ≡ leaf_value s.now asked env node }
{
    match node {
        Node::Variable(x) => rows::env::bound_at(env, wide(x)),
        _ => fixed_of(s, asked, node),
    }
}

pub fn resolve_leaf(s: &[u8], asked: usize, env: Env, t: NodeNo) -> Binding
    requires checked { Checked s.now }
    requires sized { Sized env }
    ensures { in_cells result.tag result.bits ≡ leaf_value s.now asked env (node_at s.now t.0) }
{
    leaf_of(s, asked, env, tables::node_at(s, t))
}

// the variable that a side is, where it is unbound
pub fn unbound_variable(s: &[u8], env: Env, t: NodeNo) -> Option<u32>
    requires checked { Checked s.now }
    requires sized { Sized env }
    ensures { variable_of result ≡ unbound_at s.now env t.0 }
{
    let Node::Variable(x) = tables::node_at(s, t) else {
        return None;
    };
    if rows::is_bound(rows::env::bound_at(env, wide(x))) {
        None
    } else {
        Some(x)
    }
}

// ---- two sides

pub fn is_int(b: Binding) -> bool
    ensures { ◌≡◌ {A = Bool} result (is_some (integer_in (in_cells b.tag b.bits))) }
{
    b.tag == 1
}

// none where a side is no Int
pub fn arithmetic(op: ArithOp, a: Binding, b: Binding) -> Binding
    ensures { in_cells result.tag result.bits ≡ combined op (integer_in (in_cells a.tag a.bits)) (integer_in (in_cells b.tag b.bits)) }
{
    if is_int(a) && is_int(b) {
        let bits = numbers::calculate(op, a.bits, b.bits);
        Binding { tag: 1, bits }
    } else {
        Binding { tag: 0, bits: 0 }
    }
}

// no where a side is no Int
fn ordered_ints(op: CmpOp, left: Binding, right: Binding) -> bool
    ensures { ◌≡◌ {A = Bool} result (both (orders op) (integer_in (in_cells left.tag left.bits)) (integer_in (in_cells right.tag right.bits))) }
{
    is_int(left) && (is_int(right) && numbers::ordered(op, left.bits, right.bits))
}

fn compare_bound(s: &[u8], op: CmpOp, a: Binding, b: Binding) -> bool
    requires checked { Checked s.now }
    requires bits_value { is_some (in_cells a.tag a.bits) ≡ true }
    requires bits_value_2 { is_some (in_cells b.tag b.bits) ≡ true }
    ensures { ◌≡◌ {A = Bool} result (both (compared (case_of s.now) op) (in_cells a.tag a.bits) (in_cells b.tag b.bits)) }
{
    match op {
        CmpOp::Eq => equality::binding_eq(s, a, b),
        CmpOp::NotEq => !equality::binding_eq(s, a, b),
        _ => ordered_ints(op, a, b),
    }
}

// an unresolved side makes it no, also for NotEq
pub fn compare(s: &[u8], op: CmpOp, a: Binding, b: Binding) -> bool
    requires { Checked s.now }
    ensures { ◌≡◌ {A = Bool} result (both (compared (case_of s.now) op) (in_cells a.tag a.bits) (in_cells b.tag b.bits)) }
{
    rows::is_bound(a) && (rows::is_bound(b) && compare_bound(s, op, a, b))
}
