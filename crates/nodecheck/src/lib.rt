// Refusal 6: nodes, and their height.

#![tactic(auto)]

ghost use Rattle.std.specs.Prelude.{◌≡◌, Bool, true, ◌+◌, ◌*◌, ◌<◌, ◌≤◌, max, leb, ltb, get_or};
ghost use Rattle.meaning.specs.Tests.{◌and◌, all_below, greatest};
ghost use Rattle.meaning.specs.Case.{list, nodes, values, node_word, node_at, arity, child};
ghost use Rattle.meaning.specs.Check.{bodies, mosts, value_rule, child_in, is_condition, is_operand, is_variable, path_run, argument_rule, argument_run, zeros_from, literal, rule_of, node_rule, height, height_rule, node_rules};
ghost use Rattle.nodecheck.specs.Terms.{Terms, argument_own, argument_top, ArgumentTops};
ghost use Rattle.listruns.specs.Blocks.{Tops, Undotted, Paths, Literals};

use listruns::{path_run, string_run, variable_run};
use meaning::{Node, NodeNo, Run, StrNo, ValNo};
use stringcheck::{list_count, node_count, string_count, value_count, var_count};
use tables::{list_at, node_at, node_word};
use valuecheck::literal_values;

// ---- parts of rules

// a child of node n has a lower number and a kind from low to high
fn is_child(s: &[u8], low: u32, high: u32, n: u32, c: u32) -> bool
    requires { bodies s.now ≡ true }
    ensures { ◌≡◌ {A = Bool} result (child_in s.now low high n c) }
{
    let kind = node_word(s, NodeNo(c), 0);
    c < n && low <= kind && kind <= high
}

fn is_condition(s: &[u8], n: u32, c: NodeNo) -> bool
    requires { bodies s.now ≡ true }
    ensures { ◌≡◌ {A = Bool} result (is_condition s.now n c.0) }
{
    is_child(s, 1, 10, n, c.0)
}

fn is_operand(s: &[u8], n: u32, c: NodeNo) -> bool
    requires { bodies s.now ≡ true }
    ensures { ◌≡◌ {A = Bool} result (is_operand s.now n c.0) }
{
    is_child(s, 20, 26, n, c.0)
}

fn is_variable(s: &[u8], x: u32) -> bool
    requires { bodies s.now ≡ true }
    ensures { ◌≡◌ {A = Bool} result (is_variable s.now x) }
{
    x < var_count(s)
}

// the words of node n from j on are unused
fn zeros_from(s: &[u8], n: u32, j: usize) -> bool
    requires s_value { bodies s.now ≡ true }
    requires j_bound { j ≤ 8 }
    ensures { ◌≡◌ {A = Bool} result (zeros_from s.now n j) }
{
    (j..8).all(|i| node_word(s, NodeNo(n), i) == 0)
}

// ---- conditions

// And, Or
fn pair_rule(s: &[u8], n: u32, l: NodeNo, r: NodeNo) -> bool
    requires { bodies s.now ≡ true }
    ensures { ◌≡◌ {A = Bool} result (is_condition s.now n l.0 and (is_condition s.now n r.0 and zeros_from s.now n 3)) }
{
    is_condition(s, n, l) && is_condition(s, n, r) && zeros_from(s, n, 3)
}

fn not_rule(s: &[u8], n: u32, x: NodeNo) -> bool
    requires { bodies s.now ≡ true }
    ensures { ◌≡◌ {A = Bool} result (is_condition s.now n x.0 and zeros_from s.now n 2) }
{
    is_condition(s, n, x) && zeros_from(s, n, 2)
}

// Formerly, Previous
fn window_rule(s: &[u8], n: u32, x: NodeNo) -> bool
    requires { bodies s.now ≡ true }
    ensures { ◌≡◌ {A = Bool} result (leb (node_word s.now n 3) 3 and (is_condition s.now n x.0 and zeros_from s.now n 5)) }
{
    node_word(s, NodeNo(n), 3) <= 3 && is_condition(s, n, x) && zeros_from(s, n, 5)
}

fn since_rule(s: &[u8], n: u32, l: NodeNo, r: NodeNo) -> bool
    requires { bodies s.now ≡ true }
    ensures { ◌≡◌ {A = Bool} result (is_condition s.now n l.0 and (is_condition s.now n r.0 and (leb (node_word s.now n 5) 3 and zeros_from s.now n 6))) }
{
    is_condition(s, n, l)
        && is_condition(s, n, r)
        && node_word(s, NodeNo(n), 5) <= 3
        && zeros_from(s, n, 6)
}

// the rule of an argument, path run and term, but for the term's number
fn argument_own(s: &[u8], undotted: &[bool; 16384], paths: &[u32; 8192], i: usize) -> bool
    requires s_value { bodies s.now ≡ true }
    requires s_value_2 { mosts s.now ≡ true }
    requires undotted { Undotted s.now undotted.now }
    requires paths { Paths s.now paths.now }
    requires i_bound { i < 4294967296 }
    ensures { ◌≡◌ {A = Bool} result (argument_own s.now i) }
{
    let first = list_at(s, i);
    let items = list_at(s, i + 1);
    let kind = node_word(s, NodeNo(list_at(s, i + 2)), 0);
    1 <= items && path_run(s, undotted, paths, first, items) && 20 <= kind && kind <= 24
}

fn argument_rule(s: &[u8], undotted: &[bool; 16384], paths: &[u32; 8192], n: u32, i: usize) -> bool
    requires s_value { bodies s.now ≡ true }
    requires s_value_2 { mosts s.now ≡ true }
    requires undotted { Undotted s.now undotted.now }
    requires paths { Paths s.now paths.now }
    requires i_bound { i < 4294967296 }
    ensures { ◌≡◌ {A = Bool} result (argument_rule s.now n i) }
{
    argument_own(s, undotted, paths, i) && list_at(s, i + 2) < n
}

// a Predicate may have the whole block of 128 arguments from `at` on if its number is above this
fn argument_top(s: &[u8], undotted: &[bool; 16384], paths: &[u32; 8192], at: usize) -> u32
    requires s_value { bodies s.now ≡ true }
    requires s_value_2 { mosts s.now ≡ true }
    requires undotted { Undotted s.now undotted.now }
    requires paths { Paths s.now paths.now }
    requires at_bound { at < 2147483648 }
    ensures { result ≡ argument_top s.now at }
{
    let mut top = 0u32;
    for i in 0..128 {
        if !argument_own(s, undotted, paths, at + 3 * i) {
            return u32::MAX;
        }
        top = top.max(list_at(s, at + 3 * i + 2));
    }
    top
}

// entry 3 · b + r is of the block that starts at word 384 · b + r
fn argument_tops(s: &[u8], undotted: &[bool; 16384], paths: &[u32; 8192]) -> [u32; 8192]
    requires s_value { bodies s.now ≡ true }
    requires s_value_2 { mosts s.now ≡ true }
    requires undotted { Undotted s.now undotted.now }
    requires paths { Paths s.now paths.now }
    ensures { ArgumentTops s.now result }
{
    let mut tops = [0u32; 8192];
    for k in 0..3 * (list_count(s) as usize / 384) {
        tops[k] = argument_top(s, undotted, paths, 384 * (k / 3) + k % 3);
    }
    tops
}

fn argument_run(
    s: &[u8],
    undotted: &[bool; 16384],
    paths: &[u32; 8192],
    terms: &[u32; 8192],
    n: u32,
    first: u32,
    items: u32,
) -> bool
    requires s_value { bodies s.now ≡ true }
    requires s_value_2 { mosts s.now ≡ true }
    requires undotted { Undotted s.now undotted.now }
    requires paths { Paths s.now paths.now }
    requires argument_tops { ArgumentTops s.now terms.now }
    ensures { ◌≡◌ {A = Bool} result (argument_run s.now n first items) }
{
    if (list_count(s) as usize) < first as usize + 3 * items as usize {
        return false;
    }
    let mut i = 0;
    // a while: it goes on by an argument or by a block
    while i < items {
        let at = first as usize + 3 * i as usize;
        if 3 <= at % 384 || items - i < 128 {
            if !argument_rule(s, undotted, paths, n, at) {
                return false;
            }
            i += 1;
            continue;
        }
        let k = 3 * (at / 384) + at % 384;
        if n <= terms[k] {
            return false;
        }
        i += 128;
    }
    true
}

fn predicate_rule(
    s: &[u8],
    tops: &[u32; 1024],
    undotted: &[bool; 16384],
    paths: &[u32; 8192],
    terms: &[u32; 8192],
    n: u32,
    namespace: Run,
    action: StrNo,
    kind: StrNo,
    arguments: Run,
) -> bool
    requires s_value { bodies s.now ≡ true }
    requires s_value_2 { mosts s.now ≡ true }
    requires tops { Tops s.now tops.now }
    requires undotted { Undotted s.now undotted.now }
    requires paths { Paths s.now paths.now }
    requires argument_tops { ArgumentTops s.now terms.now }
    ensures { ◌≡◌ {A = Bool} result (rule_of s.now n (Node.Predicate namespace action kind arguments)) }
{
    let strings = string_count(s);
    string_run(s, tops, namespace.first, namespace.count)
        && action.0 < strings
        && kind.0 < strings
        && argument_run(
            s,
            undotted,
            paths,
            terms,
            n,
            arguments.first,
            arguments.count,
        )
        && zeros_from(s, n, 7)
}

// Comparison, Arithmetic: the op is at most so much
fn operands_rule(s: &[u8], n: u32, most: u32, l: NodeNo, r: NodeNo) -> bool
    requires { bodies s.now ≡ true }
    ensures { ◌≡◌ {A = Bool} result (leb (node_word s.now n 1) most and (is_operand s.now n l.0 and (is_operand s.now n r.0 and zeros_from s.now n 4))) }
{
    node_word(s, NodeNo(n), 1) <= most
        && is_operand(s, n, l)
        && is_operand(s, n, r)
        && zeros_from(s, n, 4)
}

fn exists_rule(s: &[u8], n: u32, x: u32, body: NodeNo) -> bool
    requires { bodies s.now ≡ true }
    ensures { ◌≡◌ {A = Bool} result (is_variable s.now x and (is_condition s.now n body.0 and zeros_from s.now n 3)) }
{
    is_variable(s, x) && is_condition(s, n, body) && zeros_from(s, n, 3)
}

// Tp, Variable
fn variable_rule(s: &[u8], n: u32, x: u32) -> bool
    requires { bodies s.now ≡ true }
    ensures { ◌≡◌ {A = Bool} result (is_variable s.now x and zeros_from s.now n 2) }
{
    is_variable(s, x) && zeros_from(s, n, 2)
}

// ---- terms and aggregates

// a value without Null or Object
fn is_literal(s: &[u8], literals: &[bool; 16384], v: ValNo) -> bool
    requires s_value { bodies s.now ≡ true }
    requires s_value_2 { mosts s.now ≡ true }
    requires literals { Literals s.now literals.now }
    ensures { ◌≡◌ {A = Bool} result (ltb v.0 (values s.now) and literal s.now v.0) }
{
    v.0 < value_count(s) && literals[v.0 as usize]
}

fn literal_rule(s: &[u8], literals: &[bool; 16384], n: u32, v: ValNo) -> bool
    requires s_value { bodies s.now ≡ true }
    requires s_value_2 { mosts s.now ≡ true }
    requires literals { Literals s.now literals.now }
    ensures { ◌≡◌ {A = Bool} result (rule_of s.now n (Node.Literal v)) }
{
    is_literal(s, literals, v) && zeros_from(s, n, 2)
}

fn context_rule(s: &[u8], undotted: &[bool; 16384], paths: &[u32; 8192], n: u32, path: Run) -> bool
    requires s_value { bodies s.now ≡ true }
    requires s_value_2 { mosts s.now ≡ true }
    requires undotted { Undotted s.now undotted.now }
    requires paths { Paths s.now paths.now }
    ensures { ◌≡◌ {A = Bool} result (rule_of s.now n (Node.Context path)) }
{
    1 <= path.count && path_run(s, undotted, paths, path.first, path.count) && zeros_from(s, n, 3)
}

// a scope's path, whatever its root
fn scope_rule(s: &[u8], undotted: &[bool; 16384], paths: &[u32; 8192], n: u32, path: Run) -> bool
    requires s_value { bodies s.now ≡ true }
    requires s_value_2 { mosts s.now ≡ true }
    requires undotted { Undotted s.now undotted.now }
    requires paths { Paths s.now paths.now }
    ensures { ◌≡◌ {A = Bool} result (leb (node_word s.now n 1) 1 and (path_run s.now path.first path.count and zeros_from s.now n 4)) }
{
    node_word(s, NodeNo(n), 1) <= 1
        && path_run(s, undotted, paths, path.first, path.count)
        && zeros_from(s, n, 4)
}

fn aggregate_rule(s: &[u8], n: u32, a: NodeNo) -> bool
    requires { bodies s.now ≡ true }
    ensures { ◌≡◌ {A = Bool} result (child_in s.now 30 31 n a.0 and zeros_from s.now n 2) }
{
    is_child(s, 30, 31, n, a.0) && zeros_from(s, n, 2)
}

fn sum_rule(s: &[u8], tops: &[u32; 1024], n: u32, x: u32, binders: Run, body: NodeNo) -> bool
    requires s_value { bodies s.now ≡ true }
    requires s_value_2 { mosts s.now ≡ true }
    requires tops { Tops s.now tops.now }
    ensures { ◌≡◌ {A = Bool} result (rule_of s.now n (Node.Sum x binders body)) }
{
    is_variable(s, x)
        && variable_run(s, tops, binders.first, binders.count)
        && is_condition(s, n, body)
        && zeros_from(s, n, 5)
}

fn count_rule(s: &[u8], tops: &[u32; 1024], n: u32, binders: Run, body: NodeNo) -> bool
    requires s_value { bodies s.now ≡ true }
    requires s_value_2 { mosts s.now ≡ true }
    requires tops { Tops s.now tops.now }
    ensures { ◌≡◌ {A = Bool} result (rule_of s.now n (Node.Count binders body)) }
{
    variable_run(s, tops, binders.first, binders.count)
        && is_condition(s, n, body)
        && zeros_from(s, n, 4)
}

// ---- every node by what it is

fn node_rule(
    s: &[u8],
    tops: &[u32; 1024],
    undotted: &[bool; 16384],
    paths: &[u32; 8192],
    terms: &[u32; 8192],
    literals: &[bool; 16384],
    n: u32,
) -> bool
    requires s_value { bodies s.now ≡ true }
    requires s_value_2 { mosts s.now ≡ true }
    requires tops { Tops s.now tops.now }
    requires undotted { Undotted s.now undotted.now }
    requires paths { Paths s.now paths.now }
    requires argument_tops { ArgumentTops s.now terms.now }
    requires literals { Literals s.now literals.now }
    ensures { ◌≡◌ {A = Bool} result (node_rule s.now n) }
{
    let node = node_at(s, NodeNo(n));
    match node {
        Node::And(l, r) => pair_rule(s, n, l, r),
        Node::Or(l, r) => pair_rule(s, n, l, r),
        Node::Not(x) => not_rule(s, n, x),
        Node::Formerly(_, x) => window_rule(s, n, x),
        Node::Previous(_, x) => window_rule(s, n, x),
        Node::Since(l, r, _) => since_rule(s, n, l, r),
        Node::Predicate {
            namespace,
            action,
            kind,
            arguments,
        } => predicate_rule(
            s, tops, undotted, paths, terms, n, namespace, action, kind, arguments,
        ),
        Node::Comparison(_, l, r) => operands_rule(s, n, 5, l, r),
        Node::Exists(x, body) => exists_rule(s, n, x, body),
        Node::Tp(x) => variable_rule(s, n, x),
        Node::Literal(v) => literal_rule(s, literals, n, v),
        Node::Context(path) => context_rule(s, undotted, paths, n, path),
        Node::Scope(_, path) => scope_rule(s, undotted, paths, n, path),
        Node::Variable(x) => variable_rule(s, n, x),
        Node::Wildcard => zeros_from(s, n, 1),
        Node::Aggregate(a) => aggregate_rule(s, n, a),
        Node::Arithmetic(_, l, r) => operands_rule(s, n, 2, l, r),
        Node::Sum {
            variable,
            binders,
            body,
        } => sum_rule(s, tops, n, variable, binders, body),
        Node::Count { binders, body } => count_rule(s, tops, n, binders, body),
        Node::Broken => false,
    }
}

fn check_each_node(
    s: &[u8],
    tops: &[u32; 1024],
    undotted: &[bool; 16384],
    paths: &[u32; 8192],
) -> bool
    requires s_value { bodies s.now ≡ true }
    requires s_value_2 { mosts s.now ≡ true }
    requires s_value_3 { all_below (values s.now) (value_rule s.now) ≡ true }
    requires tops { Tops s.now tops.now }
    requires undotted { Undotted s.now undotted.now }
    requires paths { Paths s.now paths.now }
    ensures { ◌≡◌ {A = Bool} result (all_below (nodes s.now) (node_rule s.now)) }
{
    let literals = literal_values(s);
    let terms = argument_tops(s, undotted, paths);
    (0..node_count(s)).all(|n| node_rule(s, tops, undotted, paths, &terms, &literals, n))
}

// ---- height: children are lower, so one pass upward

// how high the children l and r of node n are
fn pair_height(heights: &[u8; 1024], l: NodeNo, r: NodeNo) -> u8
    requires l_bound { l.0 < 1024 }
    requires r_bound { r.0 < 1024 }
    ensures { result ≡ max (get_or heights.now l.0 0) (get_or heights.now r.0 0) }
{
    heights[l.0 as usize].max(heights[r.0 as usize])
}

fn one_height(heights: &[u8; 1024], x: NodeNo) -> u8
    requires { x.0 < 1024 }
    ensures { result ≡ get_or heights.now x.0 0 }
{
    heights[x.0 as usize]
}

// the greatest height of a Predicate's terms, which are below n
fn argument_height(s: &[u8], heights: &[u8; 1024], n: u32, arguments: Run) -> u8
    requires s_value { bodies s.now ≡ true }
    requires n_bound { n ≤ 1024 }
    requires terms { Terms s.now n arguments.first arguments.count }
    ensures { result ≡ greatest arguments.count (λ i. get_or heights.now (list s.now (arguments.first + 3 * i + 2)) 0) }
{
    let first = arguments.first as usize;
    let mut best = 0u8;
    for i in 0..arguments.count as usize {
        let term = list_at(s, first + 3 * i + 2) as usize;
        best = best.max(heights[term]);
    }
    best
}

// the greatest height of node n's children
fn tallest(s: &[u8], heights: &[u8; 1024], n: u32) -> u8
    requires s_value { bodies s.now ≡ true }
    requires n_bound { n ≤ 1024 }
    requires s_value_2 { all_below (nodes s.now) (node_rule s.now) ≡ true }
    ensures { result ≡ greatest (arity (node_at s.now n)) (λ i. get_or heights.now (child (list s.now) (node_at s.now n) i) 0) }
{
    let node = node_at(s, NodeNo(n));
    match node {
        Node::And(l, r) => pair_height(heights, l, r),
        Node::Or(l, r) => pair_height(heights, l, r),
        Node::Not(x) => one_height(heights, x),
        Node::Formerly(_, x) => one_height(heights, x),
        Node::Previous(_, x) => one_height(heights, x),
        Node::Since(l, r, _) => pair_height(heights, l, r),
        Node::Predicate {
            namespace,
            action,
            kind,
            arguments,
        } => argument_height(s, heights, n, arguments),
        Node::Comparison(_, l, r) => pair_height(heights, l, r),
        Node::Exists(_, body) => one_height(heights, body),
        Node::Tp(_) => 0,
        Node::Literal(_) => 0,
        Node::Context(_) => 0,
        Node::Scope(_, _) => 0,
        Node::Variable(_) => 0,
        Node::Wildcard => 0,
        Node::Aggregate(a) => one_height(heights, a),
        Node::Arithmetic(_, l, r) => pair_height(heights, l, r),
        Node::Sum {
            variable,
            binders,
            body,
        } => one_height(heights, body),
        Node::Count { binders, body } => one_height(heights, body),
        Node::Broken => 0,
    }
}

fn check_heights(s: &[u8]) -> bool
    requires s_value { bodies s.now ≡ true }
    requires s_value_2 { mosts s.now ≡ true }
    requires s_value_3 { all_below (nodes s.now) (node_rule s.now) ≡ true }
    ensures { ◌≡◌ {A = Bool} result (all_below (nodes s.now) (height_rule s.now)) }
{
    let mut heights = [0u8; 1024];
    for n in 0..node_count(s) {
        let below = tallest(s, &heights, n);
        if 64 <= below {
            return false;
        }
        heights[n as usize] = below + 1;
    }
    true
}

pub fn check_nodes(
    s: &[u8],
    tops: &[u32; 1024],
    undotted: &[bool; 16384],
    paths: &[u32; 8192],
) -> bool
    requires s_value { bodies s.now ≡ true }
    requires s_value_2 { mosts s.now ≡ true }
    requires s_value_3 { all_below (values s.now) (value_rule s.now) ≡ true }
    requires tops { Tops s.now tops.now }
    requires undotted { Undotted s.now undotted.now }
    requires paths { Paths s.now paths.now }
    ensures { ◌≡◌ {A = Bool} result (node_rules s.now) }
{
    check_each_node(s, tops, undotted, paths) && check_heights(s)
}
