// The trace being written: where each body begins, how far it is filled, and a record of each table put.

#![tactic(auto)]

ghost use Rattle.std.specs.Prelude.{[], ◌∷◌, ◌+◌, ◌*◌, ◌≤◌, length};
ghost use Rattle.laws.specs.Writing.{Writing};
ghost use Rattle.encode.specs.Words.{packed};
ghost use Rattle.jsonroom.specs.Put.{ValuePut, StringRoom, StringPut, ListRoom, ListPut, Spanned, spans, InOrder, front, contents};

use encode::put_word;
use joining::narrow;
use jsonspelt::put_spelt;

// where each body begins in the file, and where the last one ends
#[derive(Clone, Copy)]
pub struct Bodies {
    pub strings: usize,
    pub values: usize,
    pub members: usize,
    pub points: usize,
    pub lists: usize,
    pub text: usize,
    pub end: usize,
}

// how many records stand in each table: the numbers that the next ones get; and how many bytes of text
#[derive(Clone, Copy, Default)]
pub struct Next {
    pub string: usize,
    pub byte: usize,
    pub value: usize,
    pub member: usize,
    pub list: usize,
    pub point: usize,
}

// two words
pub fn put_pair(out: &mut [u8], at: usize, a: usize, b: usize)
    requires at_in_bounds { at + 8 ≤ length out.old }
    requires a_bound { (a ≤ 4294967295) × (b ≤ 4294967295) }
    ensures { Writing out.old out.new at (packed (a ∷ b ∷ [])) }
{
    put_word(out, at, narrow(a));
    put_word(out, at + 4, narrow(b));
}

// a value's record
fn put_record(out: &mut [u8], at: usize, kind: u32, x: u32, y: u32)
    requires { at + 16 ≤ length out.old }
    ensures { Writing out.old out.new at (packed (kind ∷ x ∷ y ∷ 0 ∷ [])) }
{
    put_word(out, at, kind);
    put_word(out, at + 4, x);
    put_word(out, at + 8, y);
    put_word(out, at + 12, 0);
}

pub fn put_value(out: &mut [u8], b: Bodies, next: &mut Next, kind: u32, x: u32, y: u32)
    requires { b.values + 16 * next.old.value + 16 ≤ length out.old }
    ensures { ValuePut out.old out.new b next.old kind x y next.new }
{
    put_record(out, b.values + 16 * next.value, kind, x, y);
    next.value += 1;
}

// a string at `at`, and where it ends
pub fn put_string(line: &[u8], at: usize, out: &mut [u8], b: Bodies, next: &mut Next) -> usize
    requires { StringRoom line.now at out.old b next.old }
    ensures { StringPut line.now at out.old out.new b next.old next.new result }
{
    let s = put_spelt(line, at, out, b.text + next.byte);
    put_pair(out, b.strings + 8 * next.string, next.byte, s.bytes);
    next.string += 1;
    next.byte += s.bytes;
    s.end
}

// member i of all; no name is 4294967295
pub fn put_member(out: &mut [u8], b: Bodies, i: usize, name: usize, value: usize)
    requires i_in_bounds { b.members + 8 * i + 8 ≤ length out.old }
    requires name_bound { (name ≤ 4294967295) × (value ≤ 4294967295) }
    ensures { Writing out.old out.new (b.members + 8 * i) (packed (name ∷ value ∷ [])) }
{
    put_pair(out, b.members + 8 * i, name, value);
}

// a list word and its mark
pub fn put_list(out: &mut [u8], marks: &mut [u8], b: Bodies, next: &mut Next, word: usize, mark: u8)
    requires { ListRoom out.old marks.old b next.old word }
    ensures { ListPut out.old out.new marks.old marks.new b next.old word mark next.new }
{
    put_word(out, b.lists + 4 * next.list, narrow(word));
    marks[next.list] = mark;
    next.list += 1;
}

// words from a place on
pub fn put_words(out: &mut [u8], at: usize, words: &[u32])
    requires { at + 4 * length words.now ≤ length out.old }
    ensures { Writing out.old out.new at (packed words.now) }
{
    for (i, word) in words.iter().enumerate() {
        put_word(out, at + 4 * i, *word);
    }
}

// two bodies, one after the other: where each begins and how long it is
fn put_spans(out: &mut [u8], at: usize, first: usize, second: usize, end: usize)
    requires at_in_bounds { at + 16 ≤ length out.old }
    requires spanned { Spanned first second end }
    ensures { Writing out.old out.new at (packed (spans first second end)) }
{
    put_pair(out, at, first, second - first);
    put_pair(out, at + 8, second, end - second);
}

// edition 1, no variables, then the bodies of records
fn put_front(out: &mut [u8], b: Bodies)
    requires { InOrder b out.old }
    ensures { Writing out.old out.new 0 (packed (front b)) }
{
    put_pair(out, 0, 1, 0);
    put_spans(out, 8, b.strings, b.values, b.members);
    put_spans(out, 24, b.members, b.points, b.lists);
}

// the contents; there are no nodes
pub fn put_contents(out: &mut [u8], b: Bodies)
    requires { InOrder b out.old }
    ensures { Writing out.old out.new 0 (packed (contents b)) }
{
    put_front(out, b);
    put_pair(out, 40, b.lists, 0);
    put_spans(out, 48, b.lists, b.text, b.end);
}
