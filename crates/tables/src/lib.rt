// Reading a case file: words, the contents, records, text, nodes and values. Reads are total: beyond a table's end they give what the definition gives.

#![tactic(auto)]

pub mod packed;

ghost use Rattle.std.specs.Prelude.{◌≡◌, Bool, true, ◌+◌, ◌*◌, ◌<◌, ◌≤◌, length, get_or};
ghost use Rattle.std.proofs.Common.{to_z};
ghost use Rattle.std.specs.Int.{w64};
ghost use Rattle.meaning.specs.Tests.{◌and◌, ◌or◌};
ghost use Rattle.meaning.specs.Case.{word, words, contents, offset, size, body_word, string_word, value_word, member_word, point_word, node_word, list, text};
ghost use Rattle.meaning.specs.Case.{unit_of, cmp_of, arith_of, root_from, interval, node_from, node_at, point_at, part_at, value_at};
ghost use Rattle.meaning.specs.Check.{bodies, end_to_end};
ghost use Rattle.tables.specs.Values.{meant, Means};

use meaning::{ArithOp, CmpOp, Interval, Node, NodeNo, Root, Run, StrNo, TimeUnit, ValNo};

// ---- rules of several parts

pub fn both(a: bool, b: bool) -> bool
    ensures { ◌≡◌ {A = Bool} result (a and b) }
{
    a && b
}

pub fn either(a: bool, b: bool) -> bool
    ensures { ◌≡◌ {A = Bool} result (a or b) }
{
    a || b
}

// ---- words

pub fn wide(x: u32) -> usize
    ensures { result ≡ x }
{
    x as usize
}

// four bytes, the lowest first
fn word_of(a: u8, b: u8, c: u8, d: u8) -> u32
    ensures { result ≡ word a b c d }
{
    (a as u32) + 256 * ((b as u32) + 256 * ((c as u32) + 256 * (d as u32)))
}

// word i of a file
pub fn word_at(s: &[u8], i: usize) -> u32
    requires { 4 * i + 3 < length s.now }
    ensures { result ≡ get_or (words s.now) i 0 }
{
    let k = 4 * i;
    word_of(s[k], s[k + 1], s[k + 2], s[k + 3])
}

// ---- contents

pub fn contents_word(s: &[u8], i: usize) -> u32
    requires in_bounds { 64 ≤ length s.now }
    requires i_bound { i < 16 }
    ensures { result ≡ contents s.now i }
{
    word_at(s, i)
}

// where body k starts
pub fn offset_of(s: &[u8], k: usize) -> u32
    requires in_bounds { 64 ≤ length s.now }
    requires k_bound { k < 7 }
    ensures { result ≡ offset s.now k }
{
    contents_word(s, 2 + 2 * k)
}

// how many bytes body k has
pub fn size_of(s: &[u8], k: usize) -> u32
    requires in_bounds { 64 ≤ length s.now }
    requires k_bound { k < 7 }
    ensures { result ≡ size s.now k }
{
    contents_word(s, 3 + 2 * k)
}

// ---- bodies: strings, values, members, points, nodes, lists

// word i of body k
pub fn body_word(s: &[u8], k: usize, i: usize) -> u32
    requires s_value { bodies s.now ≡ true }
    requires k_bound { k < 6 }
    ensures { result ≡ body_word s.now k i }
{
    let size = wide(size_of(s, k));
    if size / 4 <= i {
        return 0;
    }
    let at = wide(offset_of(s, k));
    word_at(s, at / 4 + i)
}

pub fn string_word(s: &[u8], n: StrNo, j: usize) -> u32
    requires { bodies s.now ≡ true }
    ensures { result ≡ string_word s.now n.0 j }
{
    let size = wide(size_of(s, 0));
    if size <= j {
        return 0;
    }
    let k = wide(n.0);
    body_word(s, 0, 2 * k + j)
}

pub fn value_word(s: &[u8], v: ValNo, j: usize) -> u32
    requires { bodies s.now ≡ true }
    ensures { result ≡ value_word s.now v.0 j }
{
    let size = wide(size_of(s, 1));
    if size <= j {
        return 0;
    }
    let k = wide(v.0);
    body_word(s, 1, 4 * k + j)
}

pub fn member_word(s: &[u8], m: usize, j: usize) -> u32
    requires { bodies s.now ≡ true }
    ensures { result ≡ member_word s.now m j }
{
    let size = wide(size_of(s, 2));
    if size <= j || size <= m {
        return 0;
    }
    body_word(s, 2, 2 * m + j)
}

pub fn point_word(s: &[u8], p: usize, j: usize) -> u32
    requires { bodies s.now ≡ true }
    ensures { result ≡ point_word s.now p j }
{
    let size = wide(size_of(s, 3));
    if size <= j || size <= p {
        return 0;
    }
    body_word(s, 3, 12 * p + j)
}

pub fn node_word(s: &[u8], n: NodeNo, j: usize) -> u32
    requires { bodies s.now ≡ true }
    ensures { result ≡ node_word s.now n.0 j }
{
    let size = wide(size_of(s, 4));
    if size <= j {
        return 0;
    }
    let k = wide(n.0);
    body_word(s, 4, 8 * k + j)
}

pub fn list_at(s: &[u8], i: usize) -> u32
    requires { bodies s.now ≡ true }
    ensures { result ≡ list s.now i }
{
    body_word(s, 5, i)
}

// the bytes of string n
pub fn text_of(s: &[u8], n: StrNo) -> &[u8]
    requires s_value { bodies s.now ≡ true }
    requires s_value_2 { end_to_end s.now ≡ true }
    ensures { result.now ≡ text s.now n.0 }
{
    let body = wide(offset_of(s, 6));
    let start = body + wide(string_word(s, n, 0));
    let end = start + wide(string_word(s, n, 1));
    &s[start..end]
}

// two halves of 64 bits
pub fn halves(low: u32, high: u32) -> u64
    ensures { result ≡ low + 4294967296 * high }
{
    // no shift: with one, a node's words are read byte by byte
    u64::from(low) + 4294967296 * u64::from(high)
}

// ---- nodes

fn unit_of(u: u32) -> TimeUnit
    ensures { result ≡ unit_of u }
{
    match u {
        1 => TimeUnit::Minutes,
        2 => TimeUnit::Hours,
        3 => TimeUnit::Days,
        _ => TimeUnit::Seconds,
    }
}

fn cmp_of(o: u32) -> CmpOp
    ensures { result ≡ cmp_of o }
{
    match o {
        1 => CmpOp::Lt,
        2 => CmpOp::Ge,
        3 => CmpOp::Gt,
        4 => CmpOp::Eq,
        5 => CmpOp::NotEq,
        _ => CmpOp::Le,
    }
}

fn arith_of(o: u32) -> ArithOp
    ensures { result ≡ arith_of o }
{
    match o {
        1 => ArithOp::Sub,
        2 => ArithOp::Mul,
        _ => ArithOp::Add,
    }
}

fn root_from(o: u32) -> Root
    ensures { result ≡ root_from o }
{
    match o {
        1 => Root::Resource,
        _ => Root::Principal,
    }
}

fn interval_of(low: u32, high: u32, unit: u32) -> Interval
    ensures { result ≡ interval low high unit }
{
    Interval {
        amount: halves(low, high),
        unit: unit_of(unit),
    }
}

// a node from its kind and its operands
fn node_from(k: u32, a: u32, b: u32, c: u32, d: u32, e: u32, f: u32) -> Node
    ensures { result ≡ node_from k a b c d e f }
{
    match k {
        1 => Node::And(NodeNo(a), NodeNo(b)),
        2 => Node::Or(NodeNo(a), NodeNo(b)),
        3 => Node::Not(NodeNo(a)),
        4 => Node::Formerly(interval_of(a, b, c), NodeNo(d)),
        5 => Node::Previous(interval_of(a, b, c), NodeNo(d)),
        6 => Node::Since(NodeNo(a), NodeNo(b), interval_of(c, d, e)),
        7 => Node::Predicate {
            namespace: Run { first: a, count: b },
            action: StrNo(c),
            kind: StrNo(d),
            arguments: Run { first: e, count: f },
        },
        8 => Node::Comparison(cmp_of(a), NodeNo(b), NodeNo(c)),
        9 => Node::Exists(a, NodeNo(b)),
        10 => Node::Tp(a),
        20 => Node::Literal(ValNo(a)),
        21 => Node::Context(Run { first: a, count: b }),
        22 => Node::Scope(root_from(a), Run { first: b, count: c }),
        23 => Node::Variable(a),
        24 => Node::Wildcard,
        25 => Node::Aggregate(NodeNo(a)),
        26 => Node::Arithmetic(arith_of(a), NodeNo(b), NodeNo(c)),
        30 => Node::Sum {
            variable: a,
            binders: Run { first: b, count: c },
            body: NodeNo(d),
        },
        31 => Node::Count {
            binders: Run { first: a, count: b },
            body: NodeNo(c),
        },
        _ => Node::Broken,
    }
}

pub fn node_at(s: &[u8], n: NodeNo) -> Node
    requires { bodies s.now ≡ true }
    ensures { result ≡ node_at s.now n.0 }
{
    let size = wide(size_of(s, 4));
    let k = wide(n.0);
    if size / 32 <= k {
        return Node::Broken;
    }
    let at = wide(offset_of(s, 4)) / 4 + 8 * k;
    node_from(
        word_at(s, at),
        word_at(s, at + 1),
        word_at(s, at + 2),
        word_at(s, at + 3),
        word_at(s, at + 4),
        word_at(s, at + 5),
        word_at(s, at + 6),
    )
}

// ---- points

// the time of point p: the 64 bits of a signed number
pub fn time_at(s: &[u8], p: usize) -> u64
    requires { bodies s.now ≡ true }
    ensures { to_z w64 result ≡ (point_at s.now p).time }
{
    let size = wide(size_of(s, 3));
    if size / 48 <= p {
        return 0;
    }
    let at = wide(offset_of(s, 3)) / 4 + 12 * p;
    halves(word_at(s, at), word_at(s, at + 1))
}

// ---- values

// what a value's record says: an Int by its 64 bits, an Array's or Object's parts as a run of the members
#[derive(Clone, Copy)]
pub enum Value {
    Null,
    Bool(u32),
    Int(u64),
    Decimal(StrNo),
    Text(StrNo),
    Entity(StrNo, StrNo),
    Array(Run),
    Object(Run),
}

// a value from its kind and its words
fn value_from(k: u32, a: u32, b: u32) -> Value
    ensures { Means k a b result }
{
    match k {
        1 => Value::Bool(a),
        2 => Value::Int(halves(a, b)),
        3 => Value::Decimal(StrNo(a)),
        4 => Value::Text(StrNo(a)),
        5 => Value::Entity(StrNo(a), StrNo(b)),
        6 => Value::Array(Run { first: a, count: b }),
        7 => Value::Object(Run { first: a, count: b }),
        _ => Value::Null,
    }
}

pub fn value_at(s: &[u8], v: ValNo) -> Value
    requires { bodies s.now ≡ true }
    ensures { meant (part_at s.now) result ≡ value_at s.now v.0 }
{
    value_from(
        value_word(s, v, 0),
        value_word(s, v, 1),
        value_word(s, v, 2),
    )
}
