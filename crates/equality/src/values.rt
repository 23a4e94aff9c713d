// Equality of values in the table, and of what variables are bound to.
ghost use Rattle.std.specs.Prelude.{◌≡◌, Bool, true, ◌+◌, ◌<◌, min, length};
ghost use Rattle.std.proofs.Math.Option.{some};
ghost use Rattle.meaning.specs.Case.{case_of, value_at, value_word};
ghost use Rattle.meaning.specs.Check.{Checked, bodies};
ghost use Rattle.meaning.specs.Equal.{same_value, bound_of};
ghost use Rattle.meaning.specs.Rows.{in_cells, same_cell};
ghost use Rattle.equality.specs.Cells.{Settled};
ghost use Rattle.equality.specs.Joined.{Headed, Paired, Glanced, Looked, Joined, Inside, Stepped, Next, Led, Leads, Ended, Met, Compared};

use crate::{Ends, Runs};
use meaning::{Binding, StrNo, ValNo};
use numbers::decimal_eq;
use std::ops::ControlFlow;
use tables::{halves, member_word, value_word, wide};

// two values of the same kind, neither Array nor Object
fn leaf_eq(s: &[u8], k: u32, a: ValNo, b: ValNo) -> bool
    requires checked { Checked s.now }
    requires a_value { value_word s.now a.0 0 ≡ k }
    requires b_value { value_word s.now b.0 0 ≡ k }
    requires k_bound { k < 6 }
    ensures { ◌≡◌ {A = Bool} result (same_value (case_of s.now) a.0 b.0) }
{
    let x = value_word(s, a, 1);
    let y = value_word(s, b, 1);
    match k {
        0 => true,
        2 => halves(x, value_word(s, a, 2)) == halves(y, value_word(s, b, 2)),
        3 => decimal_eq(s, StrNo(x), StrNo(y)),
        5 => x == y && value_word(s, a, 2) == value_word(s, b, 2),
        _ => x == y,
    }
}

// what a and b show at once: the same number, unlike kinds, leaves and unlike counts tell, two runs of members are gone on with
fn heads(s: &[u8], a: ValNo, b: ValNo) -> ControlFlow<bool, Runs>
    requires { Checked s.now }
    ensures { Headed s.now a.0 b.0 result }
{
    if a == b {
        return ControlFlow::Break(true);
    }
    let k = value_word(s, a, 0);
    if k != value_word(s, b, 0) {
        return ControlFlow::Break(false);
    }
    if k < 6 {
        return ControlFlow::Break(leaf_eq(s, k, a, b));
    }
    let n = value_word(s, a, 2);
    if n != value_word(s, b, 2) {
        return ControlFlow::Break(false);
    }
    let p = value_word(s, a, 1);
    let q = value_word(s, b, 1);
    ControlFlow::Continue(Runs { n, p, q })
}

// the values of member i of two runs that start at p and at q, where both have the same name
fn pair(s: &[u8], p: u32, q: u32, i: u32) -> Option<(ValNo, ValNo)>
    requires { bodies s.now ≡ true }
    ensures { Paired s.now (p + i) (q + i) result }
{
    let u = wide(p) + wide(i);
    let v = wide(q) + wide(i);
    if member_word(s, u, 0) != member_word(s, v, 0) {
        return None;
    }
    Some((ValNo(member_word(s, u, 1)), ValNo(member_word(s, v, 1))))
}

// most members are told by their words alone: of any kind where all are the same, an Int or a String where the first differ; None: not yet told
fn glance(s: &[u8], a: ValNo, b: ValNo) -> Option<bool>
    requires { Checked s.now }
    ensures { Glanced s.now a.0 b.0 result }
{
    if a == b {
        return Some(true);
    }
    let k = value_word(s, a, 0);
    if k != value_word(s, b, 0) {
        return Some(false);
    }
    let p = value_word(s, a, 2);
    let q = value_word(s, b, 2);
    if value_word(s, a, 1) == value_word(s, b, 1) {
        if p == q {
            return Some(true);
        }
        return None;
    }
    if k == 2 {
        return Some(false);
    }
    if k == 4 {
        return Some(false);
    }
    None
}

// a small value is compared without a table: a plain way through at most 64 members below those of a
pub fn dom_eq(s: &[u8], a: ValNo, b: ValNo) -> bool
    requires { Checked s.now }
    ensures { ◌≡◌ {A = Bool} result (same_value (case_of s.now) a.0 b.0) }
{
    let mut left = wide(value_word(s, a, 2)) + 64;
    plain_eq(s, &mut left, a, b, a, b)
}

// a and b member by member; where more than `left` are met, the answer is that of x and y, by a table, and 0 is left
fn plain_eq(s: &[u8], left: &mut usize, x: ValNo, y: ValNo, a: ValNo, b: ValNo) -> bool
    requires checked { Checked s.now }
    requires left_nonzero { 0 < left.old }
    ensures { Looked s.now left.new x.0 y.0 a.0 b.0 result }
{
    let runs = match heads(s, a, b) {
        ControlFlow::Break(same) => return same,
        ControlFlow::Continue(runs) => runs,
    };
    let n = wide(runs.n);
    if *left <= n {
        *left = 0;
        return nested_eq(s, x, y);
    }
    *left -= n;
    for i in 0..runs.n {
        let Some((c, d)) = pair(s, runs.p, runs.q, i) else {
            return false;
        };
        match glance(s, c, d) {
            Some(true) => continue,
            Some(false) => return false,
            None => {}
        }
        let r = plain_eq(s, left, x, y, c, d);
        if *left == 0 {
            return r;
        }
        if !r {
            return false;
        }
    }
    true
}

// ---- nested values: those found equal are joined, and so are not looked into twice

// the table is large: the caller calls itself, so that it is not compiled into the caller's frame
fn nested_eq(s: &[u8], a: ValNo, b: ValNo) -> bool
    requires { Checked s.now }
    ensures { ◌≡◌ {A = Bool} result (same_value (case_of s.now) a.0 b.0) }
{
    let mut lower: [u16; 16384] = [0; 16384];
    deep_eq(s, &mut lower, a, b)
}

// the number of a falls
fn deep_eq(s: &[u8], lower: &mut [u16], a: ValNo, b: ValNo) -> bool
    requires checked { Checked s.now }
    requires joined { Joined s.now lower.old }
    ensures { Compared s.now lower.new a.0 b.0 result }
{
    let runs = match heads(s, a, b) {
        ControlFlow::Break(same) => return same,
        ControlFlow::Continue(runs) => runs,
    };
    if met(s, lower, a.0, b.0) {
        return true;
    }
    for i in 0..runs.n {
        let Some((c, d)) = pair(s, runs.p, runs.q, i) else {
            return false;
        };
        if !deep_eq(s, lower, c, d) {
            return false;
        }
    }
    join(s, lower, a.0, b.0);
    true
}

fn step(lower: &[u16], v: usize) -> usize
    requires { v < length lower.now }
    ensures { Stepped lower.now v result }
{
    usize::from(lower[v])
}

// v is made to lead to the value that is d below it
fn lead(s: &[u8], lower: &mut [u16], v: usize, d: usize)
    requires { Next s.now lower.old v d }
    ensures { Led s.now lower.new v d }
{
    lower[v] = d as u16;
}

// the lowest value that v leads to; every second one on the way is made to lead further
fn lowest(s: &[u8], lower: &mut [u16], v: u32) -> usize
    requires checked { Checked s.now }
    requires joined { Joined s.now lower.old }
    requires v_bound { v < 16384 }
    ensures { Leads s.now lower.new v result }
{
    let mut k = wide(v);
    let mut d = step(lower, k);
    // a while: how far it steps is read from what it has written
    while d != 0 {
        let e = d + step(lower, k - d);
        lead(s, lower, k, e);
        k -= e;
        d = step(lower, k);
    }
    k
}

fn ends(s: &[u8], lower: &mut [u16], a: u32, b: u32) -> Ends
    requires { Inside s.now lower.old a b }
    ensures { Ended s.now lower.new a b result }
{
    let v = lowest(s, lower, a);
    let w = lowest(s, lower, b);
    Ends { v, w }
}

// whether a and b lead to the same value, and so are equal
fn met(s: &[u8], lower: &mut [u16], a: u32, b: u32) -> bool
    requires { Inside s.now lower.old a b }
    ensures { Met s.now lower.new a b result }
{
    let e = ends(s, lower, a, b);
    e.v == e.w
}

// a and b are equal, and lead to the same value from now on
fn join(s: &[u8], lower: &mut [u16], a: u32, b: u32)
    requires inside { Inside s.now lower.old a b }
    requires true_value { true ≡ same_value (case_of s.now) a b }
    ensures { Joined s.now lower.new }
{
    let e = ends(s, lower, a, b);
    if e.v < e.w {
        lead(s, lower, e.w, e.w - e.v);
    } else {
        lead(s, lower, e.v, e.v - e.w);
    }
}

// ---- what a variable is bound to

// a value's number from 64 bits: one that no table has stands for all larger ones
pub fn value_no(bits: u64) -> ValNo
    ensures { result.0 ≡ min 4294967295 bits }
{
    ValNo(bits.min(4294967295) as u32)
}

// a variable bound to value v
pub fn binding_of(s: &[u8], v: ValNo) -> Binding
    requires { Checked s.now }
    ensures { in_cells result.tag result.bits ≡ some (bound_of v.0 (value_at s.now v.0)) }
{
    if value_word(s, v, 0) == 2 {
        let bits = halves(value_word(s, v, 1), value_word(s, v, 2));
        return Binding { tag: 1, bits };
    }
    Binding {
        tag: 2,
        bits: u64::from(v.0),
    }
}

// the same thing, an Int always by its bits and a String always by its string's number
fn settled(s: &[u8], b: Binding) -> Binding
    requires { Checked s.now }
    ensures { Settled s.now b.tag b.bits result.tag result.bits }
{
    if b.tag == 2 {
        let v = value_no(b.bits);
        let x = value_word(s, v, 1);
        return match value_word(s, v, 0) {
            2 => Binding {
                tag: 1,
                bits: halves(x, value_word(s, v, 2)),
            },
            4 => Binding {
                tag: 3,
                bits: u64::from(x),
            },
            _ => b,
        };
    }
    if 3 < b.tag {
        return Binding { tag: 0, bits: 0 };
    }
    b
}

pub fn binding_eq(s: &[u8], a: Binding, b: Binding) -> bool
    requires { Checked s.now }
    ensures { ◌≡◌ {A = Bool} result (same_cell (case_of s.now) (in_cells a.tag a.bits) (in_cells b.tag b.bits)) }
{
    let x = settled(s, a);
    let y = settled(s, b);
    if x.tag != y.tag {
        return false;
    }
    match x.tag {
        0 => true,
        2 => dom_eq(s, value_no(x.bits), value_no(y.bits)),
        _ => x.bits == y.bits,
    }
}
