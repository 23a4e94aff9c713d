// What a path of names reaches: in an object, at a point's logged fields and context, from principal and resource.
ghost use Rattle.std.specs.Prelude.{◌≡◌, Bool, true, [], ◌∷◌, ◌+◌, ◌<◌, ◌≤◌, ◌%◌, eqb, length, get_or, drop};
ghost use Rattle.std.proofs.Math.Option.{some};
ghost use Rattle.meaning.specs.Tests.{or_else};
ghost use Rattle.meaning.specs.Case.{case_of, value_at, point_at, run_of, list, maybe, strings, text};
ghost use Rattle.meaning.specs.Check.{bodies, Checked, path_run};
ghost use Rattle.meaning.specs.Equal.{same_list};
ghost use Rattle.meaning.specs.Look.{named, members, descend, lookup, bound_at, attributes_of, own_part, supplied as suppliedAt, from_root, root_of, field_at, context_at, scope_at};
ghost use Rattle.meaning.specs.Rows.{in_cells};
ghost use Rattle.meaning.specs.Meaning.{names, same_event};
ghost use Rattle.laws.specs.Search.{search};
ghost use Rattle.lookup.specs.Paths.{found_at};
ghost use Rattle.lookup.specs.Dotted.{rest, begins, joins, Behind, goes_on, may_join, plain_names, key_of, Failed, Ready, Spans, Sought, Missed};

use crate::{After, Span};
use equality::binding_of;
use meaning::{Binding, Root, Run, StrNo, ValNo};
use tables::{list_at, member_word, offset_of, point_word, value_word, wide, word_at};

// ---- objects

// the value under name n in value v; members rise by name, so half of what is left goes at each turn
fn member_named(s: &[u8], v: ValNo, n: StrNo) -> Option<ValNo>
    requires { Checked s.now }
    ensures { found_at result ≡ named n.0 (members (value_at s.now v.0)) }
{
    if value_word(s, v, 0) != 7 {
        return None;
    }
    let name = n.0;
    // a checked object's run lies in its table, so its words are read with no test
    let table = wide(offset_of(s, 2)) / 4;
    let mut at = wide(value_word(s, v, 1));
    let mut left = wide(value_word(s, v, 2));
    // a while: the names are words of the file, two apart, and no slice that could be searched by its own method
    while 0 < left {
        let half = left / 2;
        let middle = at + half;
        let word = table + 2 * middle;
        let here = word_at(s, word);
        if name == here {
            return Some(ValNo(word_at(s, word + 1)));
        }
        if name < here {
            left = half;
        } else {
            at = middle + 1;
            left = left - half - 1;
        }
    }
    None
}

// the value that a path reaches from value v
pub fn path_descend(s: &[u8], v: ValNo, path: Run) -> Option<ValNo>
    requires { Checked s.now }
    ensures { found_at result ≡ descend (case_of s.now) v.0 (names (case_of s.now) path) }
{
    let first = wide(path.first);
    let mut at = v;
    for i in 0..wide(path.count) {
        at = member_named(s, at, StrNo(list_at(s, first + i)))?;
    }
    Some(at)
}

fn binding_found(s: &[u8], found: Option<ValNo>) -> Binding
    requires { Checked s.now }
    ensures { in_cells result.tag result.bits ≡ bound_at (case_of s.now) (found_at found) }
{
    match found {
        Some(v) => binding_of(s, v),
        None => Binding { tag: 0, bits: 0 },
    }
}

// what a path reaches from value v
fn reached(s: &[u8], v: ValNo, path: Run) -> Binding
    requires { Checked s.now }
    ensures { in_cells result.tag result.bits ≡ bound_at (case_of s.now) (descend (case_of s.now) v.0 (names (case_of s.now) path)) }
{
    binding_found(s, path_descend(s, v, path))
}

// ---- names with dots: what a path gives in context and attributes

// whether t has the name from byte `at` on
fn stands_at(t: &[u8], at: usize, name: &[u8]) -> bool
    requires { at ≤ length t.now }
    ensures { ◌≡◌ {A = Bool} result (begins name.now (drop at t.now)) }
{
    if t.len() - at < name.len() {
        return false;
    }
    // no starts_with: it is a call, which takes longer than the few bytes of a name
    for i in 0..name.len() {
        if t[at + i] != name[i] {
            return false;
        }
    }
    true
}

// what is behind a name that stands at byte `at` of t
fn behind_name(t: &[u8], at: usize, name: &[u8]) -> After
    requires { at ≤ length t.now }
    ensures { Behind t.now at name.now result }
{
    if !stands_at(t, at, name) {
        return After::Other;
    }
    let end = at + name.len();
    if end == t.len() {
        return After::End;
    }
    if t[end] != b'.' {
        return After::Other;
    }
    After::Dot(end + 1)
}

// how many of the path's names from `from` on string n joins by dots, 0 where it joins none
fn names_joined(s: &[u8], n: StrNo, path: Run, from: usize) -> usize
    requires checked { Checked s.now }
    requires from_le_count { from ≤ path.count }
    ensures value { result ≡ joins (case_of s.now) (text s.now n.0) (rest s.now path from) }
    ensures result_bound { from + result ≤ path.count }
{
    let first = wide(path.first) + from;
    let left = wide(path.count) - from;
    let mut at = 0;
    for k in 0..left {
        let name = StrNo(list_at(s, first + k));
        match behind_name(tables::text_of(s, n), at, tables::text_of(s, name)) {
            After::End => return k + 1,
            After::Dot(next) => at = next,
            After::Other => return 0,
        }
    }
    0
}

fn goes_on(name: &[u8], t: &[u8]) -> bool
    ensures { ◌≡◌ {A = Bool} result (goes_on name.now t.now) }
{
    let end = name.len();
    end < t.len() && t[end] <= b'.' && stands_at(t, 0, name)
}

// whether a string may begin with string n and a dot: then the one behind n in their order goes on so
fn may_join(s: &[u8], n: StrNo) -> bool
    requires checked { Checked s.now }
    requires n_bound { n.0 < strings s.now }
    ensures { ◌≡◌ {A = Bool} result (may_join s.now n.0) }
{
    let count = tables::size_of(s, 0) / 8;
    let next = n.0 + 1;
    count != next && goes_on(tables::text_of(s, n), tables::text_of(s, StrNo(next)))
}

// the number that value v with the names from `from` on is kept by
fn key_of(v: ValNo, from: usize) -> u64
    requires { from < 4294967295 }
    ensures value { result ≡ key_of v.0 from }
    ensures from_bound { from < 4294967295 }
{
    1 + (from as u64) + 4294967296 * u64::from(v.0)
}

fn place_of(key: u64) -> usize
    ensures { result ≡ key % 3989 }
{
    (key % 3989) as usize
}

// whether this led nowhere before
fn known(failed: &[u64], key: u64) -> bool
    requires { length failed.now ≡ 3989 }
    ensures { ◌≡◌ {A = Bool} result (eqb (get_or failed.now (key % 3989) 0) key) }
{
    let at = place_of(key);
    failed[at] == key
}

// it led nowhere; what was kept in its place is forgotten
fn note(s: &[u8], failed: &mut [u64], path: Run, v: ValNo, from: usize)
    requires missed { Missed s.now path failed.old v.0 from }
    requires from_bound { from < 4294967295 }
    ensures { Missed s.now path failed.new v.0 from }
{
    let key = key_of(v, from);
    let at = place_of(key);
    failed[at] = key;
}

// what is no object has no members
fn members_of(s: &[u8], v: ValNo) -> Span
    requires { Checked s.now }
    ensures { Spans s.now v.0 result }
{
    if value_word(s, v, 0) != 7 {
        return Span { first: 0, end: 0 };
    }
    let first = wide(value_word(s, v, 1));
    let end = first + wide(value_word(s, v, 2));
    Span { first, end }
}

// from value v by the names from `from` on; what leads nowhere is kept
#[cycle(look_look_in)]
fn look(s: &[u8], failed: &mut [u64], path: Run, v: ValNo, from: usize) -> Option<ValNo>
    requires checked { Checked s.now }
    requires failed { Failed s.now path failed.old }
    requires from_le_count { from ≤ path.count }
    ensures { Sought s.now path failed.new v.0 from result }
{
    if from == wide(path.count) {
        return Some(v);
    }
    if known(failed, key_of(v, from)) {
        return None;
    }
    match look_in(s, failed, path, v, from) {
        Some(u) => Some(u),
        None => {
            note(s, failed, path, v, from);
            None
        }
    }
}

// the last member that leads to the path's end
#[cycle(look_look_in)]
fn look_in(s: &[u8], failed: &mut [u64], path: Run, v: ValNo, from: usize) -> Option<ValNo>
    requires { Ready s.now path failed.old from }
    ensures { Sought s.now path failed.new v.0 from result }
{
    let run = members_of(s, v);
    for m in (run.first..run.end).rev() {
        let k = names_joined(s, StrNo(member_word(s, m, 0)), path, from);
        if k == 0 {
            continue;
        }
        let u = ValNo(member_word(s, m, 1));
        if let Some(w) = look(s, failed, path, u, from + k) {
            return Some(w);
        }
    }
    None
}

// the table is large: the caller calls itself, so that it is not compiled into the caller's frame
fn look_far(s: &[u8], path: Run, v: ValNo, from: usize) -> Option<ValNo>
    requires checked { Checked s.now }
    requires from_le_count { from ≤ path.count }
    ensures { found_at result ≡ search (case_of s.now) v.0 (rest s.now path from) }
{
    let mut failed: [u64; 3989] = [0; 3989];
    look(s, &mut failed, path, v, from)
}

// what they give, name by name as long as no string joins a name with the next
fn look_from(s: &[u8], path: Run, v: ValNo, from: usize) -> Binding
    requires checked { Checked s.now }
    requires count_value { path_run s.now path.first path.count ≡ true }
    requires from_le_count { from ≤ path.count }
    ensures { in_cells result.tag result.bits ≡ bound_at (case_of s.now) (search (case_of s.now) v.0 (rest s.now path from)) }
{
    if from == wide(path.count) {
        return binding_of(s, v);
    }
    let name = StrNo(list_at(s, wide(path.first) + from));
    if may_join(s, name) {
        return binding_found(s, look_far(s, path, v, from));
    }
    match member_named(s, v, name) {
        Some(u) => look_from(s, path, u, from + 1),
        None => Binding { tag: 0, bits: 0 },
    }
}

// whether no string joins a name of the path with the next
fn plain_path(s: &[u8], path: Run) -> bool
    requires checked { Checked s.now }
    requires count_value { path_run s.now path.first path.count ≡ true }
    ensures { ◌≡◌ {A = Bool} result (plain_names s.now (names (case_of s.now) path)) }
{
    let first = wide(path.first);
    for i in 1..wide(path.count) {
        if may_join(s, StrNo(list_at(s, first + i - 1))) {
            return false;
        }
    }
    true
}

// what a path gives in value v; a plain one, and so one of a single name, as a logged field's
fn path_lookup(s: &[u8], v: ValNo, path: Run) -> Binding
    requires checked { Checked s.now }
    requires count_value { path_run s.now path.first path.count ≡ true }
    ensures { in_cells result.tag result.bits ≡ bound_at (case_of s.now) (lookup (case_of s.now) v.0 (names (case_of s.now) path)) }
{
    // no value is that deep: the names of a longer path are asked as they are reached
    if path.count < 32 && plain_path(s, path) {
        return reached(s, v, path);
    }
    look_from(s, path, v, 0)
}

// ---- at a point

pub fn field_at(s: &[u8], p: usize, path: Run) -> Binding
    requires { Checked s.now }
    ensures { in_cells result.tag result.bits ≡ field_at (case_of s.now) (point_at s.now p) (names (case_of s.now) path) }
{
    reached(s, ValNo(point_word(s, p, 6)), path)
}

pub fn context_at(s: &[u8], p: usize, path: Run) -> Binding
    requires checked { Checked s.now }
    requires count_value { path_run s.now path.first path.count ≡ true }
    ensures { in_cells result.tag result.bits ≡ context_at (case_of s.now) (point_at s.now p) (names (case_of s.now) path) }
{
    path_lookup(s, ValNo(point_word(s, p, 7)), path)
}

// the attribute object that point p has of an entity
fn attributes_of(s: &[u8], p: usize, t: StrNo, i: StrNo) -> Option<ValNo>
    requires { bodies s.now ≡ true }
    ensures { found_at result ≡ attributes_of t.0 i.0 (point_at s.now p).entities }
{
    let first = wide(point_word(s, p, 10));
    let count = wide(point_word(s, p, 11));
    for k in 0..count {
        let at = first + 3 * k;
        if t.0 == list_at(s, at) && i.0 == list_at(s, at + 1) {
            return Some(ValNo(list_at(s, at + 2)));
        }
    }
    None
}

fn is_id(s: &[u8]) -> bool
    ensures { ◌≡◌ {A = Bool} result (same_list s.now (105 ∷ 100 ∷ [])) }
{
    s == b"id".as_slice()
}

fn is_type(s: &[u8]) -> bool
    ensures { ◌≡◌ {A = Bool} result (same_list s.now (116 ∷ 121 ∷ 112 ∷ 101 ∷ [])) }
{
    s == b"type".as_slice()
}

// `id` and `type` alone fall back to the entity's own parts
fn own_part(s: &[u8], t: StrNo, i: StrNo, path: Run) -> Binding
    requires { Checked s.now }
    ensures { in_cells result.tag result.bits ≡ own_part (case_of s.now) t.0 i.0 (names (case_of s.now) path) }
{
    if path.count != 1 {
        return Binding { tag: 0, bits: 0 };
    }
    let name = tables::text_of(s, StrNo(list_at(s, wide(path.first))));
    if is_id(name) {
        return Binding {
            tag: 3,
            bits: u64::from(i.0),
        };
    }
    if is_type(name) {
        return Binding {
            tag: 3,
            bits: u64::from(t.0),
        };
    }
    Binding { tag: 0, bits: 0 }
}

// what a path reaches in the attributes that point p has of an entity
fn supplied(s: &[u8], p: usize, t: StrNo, i: StrNo, path: Run) -> Binding
    requires checked { Checked s.now }
    requires count_value { path_run s.now path.first path.count ≡ true }
    ensures { in_cells result.tag result.bits ≡ suppliedAt (case_of s.now) (attributes_of t.0 i.0 (point_at s.now p).entities) (names (case_of s.now) path) }
{
    match attributes_of(s, p, t, i) {
        Some(v) => path_lookup(s, v, path),
        None => Binding { tag: 0, bits: 0 },
    }
}

// the first, or the second where there is no first
fn or_else(a: Binding, b: Binding) -> Binding
    ensures { in_cells result.tag result.bits ≡ or_else (in_cells a.tag a.bits) (in_cells b.tag b.bits) }
{
    if a.tag == 0 {
        return b;
    }
    if 3 < a.tag {
        return b;
    }
    a
}

// a supplied attribute wins
fn resolve_entity_attr(s: &[u8], p: usize, t: StrNo, i: StrNo, path: Run) -> Binding
    requires checked { Checked s.now }
    requires count_value { path_run s.now path.first path.count ≡ true }
    ensures { in_cells result.tag result.bits ≡ or_else (suppliedAt (case_of s.now) (attributes_of t.0 i.0 (point_at s.now p).entities) (names (case_of s.now) path)) (own_part (case_of s.now) t.0 i.0 (names (case_of s.now) path)) }
{
    let given = supplied(s, p, t, i, path);
    let own = own_part(s, t, i, path);
    or_else(given, own)
}

// what a path reaches from a root that is there
fn from_value(s: &[u8], p: usize, v: ValNo, path: Run) -> Binding
    requires checked { Checked s.now }
    requires count_value { path_run s.now path.first path.count ≡ true }
    ensures { in_cells result.tag result.bits ≡ from_root (case_of s.now) (point_at s.now p) (some v.0) (names (case_of s.now) path) }
{
    if path.count == 0 {
        return binding_of(s, v);
    }
    if value_word(s, v, 0) != 5 {
        return Binding { tag: 0, bits: 0 };
    }
    let t = value_word(s, v, 1);
    let i = value_word(s, v, 2);
    resolve_entity_attr(s, p, StrNo(t), StrNo(i), path)
}

fn root_word(s: &[u8], p: usize, root: Root) -> u32
    requires { bodies s.now ≡ true }
    ensures { maybe result ≡ root_of (point_at s.now p) root }
{
    match root {
        Root::Principal => point_word(s, p, 8),
        Root::Resource => point_word(s, p, 9),
    }
}

pub fn scope_at(s: &[u8], p: usize, root: Root, path: Run) -> Binding
    requires checked { Checked s.now }
    requires count_value { path_run s.now path.first path.count ≡ true }
    ensures { in_cells result.tag result.bits ≡ scope_at (case_of s.now) (point_at s.now p) root (names (case_of s.now) path) }
{
    let v = root_word(s, p, root);
    if v == 4294967295 {
        return Binding { tag: 0, bits: 0 };
    }
    from_value(s, p, ValNo(v), path)
}

// ---- events

// whether two runs of the lists hold the same words
fn same_runs(s: &[u8], a: Run, b: Run) -> bool
    requires { bodies s.now ≡ true }
    ensures { ◌≡◌ {A = Bool} result (same_list (run_of (list s.now) a) (run_of (list s.now) b)) }
{
    let n = wide(a.count);
    if n != wide(b.count) {
        return false;
    }
    let p = wide(a.first);
    let q = wide(b.first);
    for i in 0..n {
        if list_at(s, p + i) != list_at(s, q + i) {
            return false;
        }
    }
    true
}

// whether point p has this namespace, action and kind
pub fn same_event(s: &[u8], namespace: Run, action: StrNo, kind: StrNo, p: usize) -> bool
    requires { Checked s.now }
    ensures { ◌≡◌ {A = Bool} result (same_event (names (case_of s.now) namespace) action.0 kind.0 (point_at s.now p)) }
{
    if action.0 != point_word(s, p, 4) || kind.0 != point_word(s, p, 5) {
        return false;
    }
    let own = Run {
        first: point_word(s, p, 2),
        count: point_word(s, p, 3),
    };
    same_runs(s, namespace, own)
}
