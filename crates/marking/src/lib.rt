// List places against their marks, in a finished case; and strings that leave text.

#![tactic(auto)]

ghost use Rattle.std.specs.Prelude.{◌≡◌, Bool, true, false, ◌+◌, ◌<◌, ◌≤◌, min, length};
ghost use Rattle.meaning.specs.Tests.{choose, all_below};
ghost use Rattle.meaning.specs.Case.{points, nodes, strings};
ghost use Rattle.meaning.specs.Check.{bodies};
ghost use Rattle.encode.specs.Unsorted.{in_text};
ghost use Rattle.encode.specs.Write.{point_marks, node_marks};
ghost use Rattle.marking.specs.Runs.{word, own_words, word_of, item, item_of, ItemPlace, known, kept, Known};

use finish::is_marked;
use meaning::{Node, NodeNo, StrNo};
use stringcheck::{node_count, point_count, string_count};
use tables::{list_at, node_at, point_word, size_of, string_word, wide};

// ---- runs may overlap and are long, so stretches that pass are known ahead: at every 128th word, how many items from it on

// how many items from `at` on are known to pass
fn ahead(table: &[u32; 8192], at: usize) -> u32
    ensures { result ≡ known table.now at }
{
    if at % 128 != 0 {
        return 0;
    }
    let b = at / 128;
    if 8192 <= b {
        return 0;
    }
    table[b]
}

// as many items from i on pass
fn keep(table: &mut [u32; 8192], i: usize, items: u32)
    requires { i < 1048576 }
    ensures { table.new ≡ kept table.old i items }
{
    if i % 128 == 0 {
        let b = i / 128;
        table[b] = items;
    }
}

// one item more, if it passes
fn longer(passes: bool, items: u32) -> u32
    requires { items < u32.MAX }
    ensures { result ≡ choose passes (items + 1) 0 }
{
    if passes { items + 1 } else { 0 }
}

// where a table ends: at the last mark, or where its entries do
fn table_end(marks: &[u8]) -> usize
    ensures { result ≡ min (length marks.now) 1048576 }
{
    marks.len().min(1048576)
}

// ---- words

// is word i marked as one that names a string, or as another?
fn is_word(marks: &[u8], names: bool, i: usize) -> bool
    ensures { ◌≡◌ {A = Bool} result (word marks.now names i) }
{
    let marked = is_marked(marks, i);
    if names { marked } else { !marked }
}

fn word_table(marks: &[u8], names: bool) -> [u32; 8192]
    ensures { Known (word_of marks.now names) result }
{
    let mut table = [0u32; 8192];
    let mut items = 0;
    for i in (0..table_end(marks)).rev() {
        items = longer(is_word(marks, names, i), items);
        keep(&mut table, i, items);
    }
    table
}

fn word_run(marks: &[u8], table: &[u32; 8192], names: bool, first: u32, items: u32) -> bool
    requires { Known (word_of marks.now names) table.now }
    ensures { ◌≡◌ {A = Bool} result (all_below items (word_of marks.now names first)) }
{
    let mut i = 0;
    // a while: what is known to pass is leapt over
    while i < items {
        let at = wide(first) + wide(i);
        let pass = ahead(table, at);
        if items - i <= pass {
            return true;
        }
        if !is_word(marks, names, at + wide(pass)) {
            return false;
        }
        i += pass + 1;
    }
    true
}

// ---- entities and arguments

// the three words of an entity or of an argument
fn own_words(marks: &[u8], names: bool, i: usize) -> bool
    requires { i ≤ 17179869184 }
    ensures { ◌≡◌ {A = Bool} result (own_words marks.now names i) }
{
    is_word(marks, names, i) && is_word(marks, names, i + 1) && is_word(marks, false, i + 2)
}

// an argument's path names strings
fn is_item(f: &[u8], marks: &[u8], names: &[u32; 8192], argument: bool, i: usize) -> bool
    requires f_value { bodies f.now ≡ true }
    requires known { Known (word_of marks.now true) names.now }
    requires i_bound { i ≤ 17179869184 }
    ensures { ◌≡◌ {A = Bool} result (item f.now marks.now argument i) }
{
    let own = own_words(marks, !argument, i);
    if !argument {
        return own;
    }
    own && word_run(marks, names, true, list_at(f, i), list_at(f, i + 1))
}

fn item_table(f: &[u8], marks: &[u8], names: &[u32; 8192], argument: bool) -> [u32; 8192]
    requires f_value { bodies f.now ≡ true }
    requires known { Known (word_of marks.now true) names.now }
    ensures { Known (item_of f.now marks.now argument) result }
{
    let mut table = [0u32; 8192];
    let mut here = 0;
    let mut next = 0;
    let mut last = 0;
    for i in (0..table_end(marks)).rev() {
        let items = longer(is_item(f, marks, names, argument, i), last);
        last = next;
        next = here;
        here = items;
        keep(&mut table, i, items);
    }
    table
}

// the word at which item i of a run starts
fn item_place(first: u32, i: u32) -> usize
    ensures { ItemPlace first i result }
{
    wide(first) + 3 * wide(i)
}

fn item_run(
    f: &[u8],
    marks: &[u8],
    names: &[u32; 8192],
    table: &[u32; 8192],
    argument: bool,
    first: u32,
    items: u32,
) -> bool
    requires f_value { bodies f.now ≡ true }
    requires known { Known (word_of marks.now true) names.now }
    requires known_2 { Known (item_of f.now marks.now argument) table.now }
    ensures { ◌≡◌ {A = Bool} result (all_below items (item_of f.now marks.now argument first)) }
{
    let mut i = 0;
    // a while: what is known to pass is leapt over
    while i < items {
        let pass = ahead(table, item_place(first, i));
        if items - i <= pass {
            return true;
        }
        if !is_item(f, marks, names, argument, item_place(first, i + pass)) {
            return false;
        }
        i += pass + 1;
    }
    true
}

// ---- points and nodes

// namespace and entities of point p
fn point_marks(f: &[u8], marks: &[u8], names: &[u32; 8192], entities: &[u32; 8192], p: u32) -> bool
    requires f_value { bodies f.now ≡ true }
    requires known { Known (word_of marks.now true) names.now }
    requires known_2 { Known (item_of f.now marks.now false) entities.now }
    ensures { ◌≡◌ {A = Bool} result (point_marks f.now marks.now p) }
{
    let at = wide(p);
    let place = point_word(f, at, 2);
    let words = point_word(f, at, 3);
    let first = point_word(f, at, 10);
    let items = point_word(f, at, 11);
    word_run(marks, names, true, place, words)
        && item_run(f, marks, names, entities, false, first, items)
}

pub fn points_marked(f: &[u8], marks: &[u8]) -> bool
    requires { bodies f.now ≡ true }
    ensures { ◌≡◌ {A = Bool} result (all_below (points f.now) (point_marks f.now marks.now)) }
{
    let names = word_table(marks, true);
    let entities = item_table(f, marks, &names, false);
    for p in 0..point_count(f) {
        if !point_marks(f, marks, &names, &entities, p) {
            return false;
        }
    }
    true
}

// the list places that node n uses
fn node_marks(
    f: &[u8],
    marks: &[u8],
    names: &[u32; 8192],
    others: &[u32; 8192],
    items: &[u32; 8192],
    n: u32,
) -> bool
    requires f_value { bodies f.now ≡ true }
    requires known { Known (word_of marks.now true) names.now }
    requires known_2 { Known (word_of marks.now false) others.now }
    requires known_3 { Known (item_of f.now marks.now true) items.now }
    ensures { ◌≡◌ {A = Bool} result (node_marks f.now marks.now n) }
{
    match node_at(f, NodeNo(n)) {
        Node::Predicate {
            namespace,
            action: _,
            kind: _,
            arguments,
        } => {
            word_run(marks, names, true, namespace.first, namespace.count)
                && item_run(
                    f,
                    marks,
                    names,
                    items,
                    true,
                    arguments.first,
                    arguments.count,
                )
        }
        Node::Context(path) => word_run(marks, names, true, path.first, path.count),
        Node::Scope(_, path) => word_run(marks, names, true, path.first, path.count),
        Node::Sum {
            variable: _,
            binders,
            body: _,
        } => word_run(marks, others, false, binders.first, binders.count),
        Node::Count { binders, body: _ } => {
            word_run(marks, others, false, binders.first, binders.count)
        }
        _ => true,
    }
}

pub fn nodes_marked(f: &[u8], marks: &[u8]) -> bool
    requires { bodies f.now ≡ true }
    ensures { ◌≡◌ {A = Bool} result (all_below (nodes f.now) (node_marks f.now marks.now)) }
{
    let names = word_table(marks, true);
    let others = word_table(marks, false);
    let items = item_table(f, marks, &names, true);
    for n in 0..node_count(f) {
        if !node_marks(f, marks, &names, &others, &items, n) {
            return false;
        }
    }
    true
}

// ---- strings

fn in_text(s: &[u8], k: u32) -> bool
    requires { bodies s.now ≡ true }
    ensures { ◌≡◌ {A = Bool} result (in_text s.now k) }
{
    let end = wide(string_word(s, StrNo(k), 0)) + wide(string_word(s, StrNo(k), 1));
    end <= wide(size_of(s, 6))
}

pub fn strings_in_text(s: &[u8]) -> bool
    requires { bodies s.now ≡ true }
    ensures { ◌≡◌ {A = Bool} result (all_below (strings s.now) (in_text s.now)) }
{
    for k in 0..string_count(s) {
        if !in_text(s, k) {
            return false;
        }
    }
    true
}
