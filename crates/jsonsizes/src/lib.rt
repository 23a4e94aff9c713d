// How many bytes each string and each value of a case takes as JSON, counted up to a limit, since shared values unfold. Runs of members may overlap, so they are added up by blocks of 512.

#![tactic(auto)]

ghost use Rattle.std.specs.Prelude.{◌+◌, ◌*◌, ◌<◌, ◌≤◌, min, ◌≡◌, length, get_or, eqb};
ghost use Rattle.std.proofs.Common.{to_z};
ghost use Rattle.std.specs.Int.{w64};
ghost use Rattle.meaning.specs.Case.{strings, values};
ghost use Rattle.meaning.specs.Check.{Checked};
ghost use Rattle.laws.specs.Tests.{Filled};
ghost use Rattle.jsontext.specs.Values.{Truth};
ghost use Rattle.jsontrace.specs.Text.{escaped_byte, escaped, natural, integer, shown};
ghost use Rattle.jsonsizes.specs.Sizes.{item_long, run_long, frame, string_long, value_long, plain_long, leaf_long, Named, Ready, Readies, Sums};

use jsonput::{is_marked, words_of};
use meaning::{StrNo, ValNo};
use stringcheck::{string_count, value_count};
use tables::{halves, member_word, text_of};

// the sum, or the limit where that is less
pub fn capped(a: usize, b: usize, limit: usize) -> usize
    ensures { result ≡ min (a + b) limit }
{
    a.saturating_add(b).min(limit)
}

// ---- strings

fn escaped_byte_size(c: u8) -> usize
    ensures { result ≡ length (escaped_byte c) }
{
    if c < 32 {
        return 6;
    }
    if is_marked(c) { 2 } else { 1 }
}

fn escaped_size(t: &[u8], limit: usize) -> usize
    ensures { result ≡ min (length (escaped t.now)) limit }
{
    let mut total = 0;
    for &c in t {
        total = capped(total, escaped_byte_size(c), limit);
    }
    total
}

fn string_size(s: &[u8], n: StrNo, limit: usize) -> usize
    requires { Checked s.now }
    ensures { result ≡ string_long s.now limit n.0 }
{
    capped(escaped_size(text_of(s, n), limit), 2, limit)
}

// how long each string is in its quotation marks, up to the limit
pub fn string_sizes(s: &[u8], limit: usize) -> [usize; 16384]
    requires { Checked s.now }
    ensures { Filled 0 (string_long s.now limit) result (strings s.now) }
{
    let n = string_count(s);
    let mut sizes = [0usize; 16384];
    for k in 0..n {
        sizes[k as usize] = string_size(s, StrNo(k), limit);
    }
    sizes
}

// ---- values that hold no others

fn natural_size(n: u64) -> usize
    ensures { (result ≡ length (natural n)) × (result ≤ n + 1) }
{
    if n < 10 { 1 } else { natural_size(n / 10) + 1 }
}

pub fn integer_size(bits: u64) -> usize
    ensures { result ≡ length (integer (to_z w64 bits)) }
{
    let n = bits.cast_signed();
    let digits = natural_size(n.unsigned_abs());
    if n < 0 { digits + 1 } else { digits }
}

fn truth_size(b: u32) -> usize
    ensures { result ≡ length (shown (Truth (eqb b 1))) }
{
    if b == 1 { 4 } else { 5 }
}

pub fn counted(sizes: &[usize; 16384], n: u32) -> usize
    requires { n < 16384 }
    ensures { result ≡ get_or sizes.now n 0 }
{
    sizes[n as usize]
}

// null, a truth, an integer
fn plain_size(kind: u32, a: u32, b: u32, limit: usize) -> usize
    ensures { result ≡ min (plain_long kind a b) limit }
{
    if kind < 1 {
        return capped(0, 4, limit);
    }
    if kind < 2 {
        return capped(0, truth_size(a), limit);
    }
    capped(0, integer_size(halves(a, b)), limit)
}

// from its kind and its words; 34 and 28 are the bytes of a decimal's and an entity's form
fn leaf_size(names: &[usize; 16384], kind: u32, a: u32, b: u32, limit: usize) -> usize
    requires { Named kind a b }
    ensures { result ≡ min (leaf_long names.now kind a b) limit }
{
    if kind < 3 {
        return plain_size(kind, a, b, limit);
    }
    let first = counted(names, a);
    if kind < 4 {
        return capped(first, 34, limit);
    }
    if kind < 5 {
        return capped(first, 0, limit);
    }
    let two = capped(first, counted(names, b), limit);
    capped(two, 28, limit)
}

// ---- arrays and objects

// member m as an item: a comma, its name in an object, its value
fn item_size(
    s: &[u8],
    names: &[usize; 16384],
    sizes: &[usize; 16384],
    kind: u32,
    m: usize,
    limit: usize,
) -> usize
    requires { Ready s.now limit names.now sizes.now kind m }
    ensures { result ≡ min (item_long s.now kind m) limit }
{
    let held = counted(sizes, member_word(s, m, 1));
    if kind < 7 {
        return capped(held, 1, limit);
    }
    let name = counted(names, member_word(s, m, 0));
    let two = capped(name, held, limit);
    capped(two, 2, limit)
}

// the block of members from `at` on
fn block_size(
    s: &[u8],
    names: &[usize; 16384],
    sizes: &[usize; 16384],
    kind: u32,
    at: usize,
    limit: usize,
) -> usize
    requires readies { Readies s.now limit names.now sizes.now kind at 512 }
    requires at_bound { at < 4294967296 }
    ensures { result ≡ min (run_long s.now kind at 512) limit }
{
    let mut total = 0;
    for i in 0..512 {
        let one = item_size(s, names, sizes, kind, at + i, limit);
        total = capped(total, one, limit);
    }
    total
}

// block b; once it is added up its sum is kept, for each kind of holder by itself
fn kept_block(
    s: &[u8],
    names: &[usize; 16384],
    sizes: &[usize; 16384],
    sums: &mut [usize; 2056],
    kind: u32,
    b: usize,
    limit: usize,
) -> usize
    requires readies { Readies s.now limit names.now sizes.now kind (512 * b) 512 }
    requires b_bound { b < 1024 }
    requires le_kind { 6 ≤ kind }
    requires sums { Sums s.now limit sums.old }
    ensures value { result ≡ min (run_long s.now kind (512 * b) 512) limit }
    ensures sums_2 { Sums s.now limit sums.new }
{
    let at = 2 * b + kind as usize;
    let known = sums[at];
    if known != 0 {
        return known;
    }
    let found = block_size(s, names, sizes, kind, 512 * b, limit);
    sums[at] = found;
    found
}

// so many bytes and a run of members
fn run_size(
    s: &[u8],
    names: &[usize; 16384],
    sizes: &[usize; 16384],
    sums: &mut [usize; 2056],
    kind: u32,
    first: usize,
    items: usize,
    start: usize,
    limit: usize,
) -> usize
    requires readies { Readies s.now limit names.now sizes.now kind first items }
    requires bound { first + items ≤ 524288 }
    requires le_kind { 6 ≤ kind }
    requires sums { Sums s.now limit sums.old }
    ensures value { result ≡ min (start + run_long s.now kind first items) limit }
    ensures sums_2 { Sums s.now limit sums.new }
{
    let mut total = capped(0, start, limit);
    let mut i = 0;
    // a while: a step is one member or a block of 512, which no range says
    while i < items {
        let at = first + i;
        if at % 512 != 0 || items - i < 512 {
            let one = item_size(s, names, sizes, kind, at, limit);
            total = capped(total, one, limit);
            i += 1;
            continue;
        }
        let block = kept_block(s, names, sizes, sums, kind, at / 512, limit);
        total = capped(total, block, limit);
        i += 512;
    }
    total
}

// the brackets, without the comma that the first item does not have
fn frame_size(items: u32) -> usize
    ensures { result ≡ frame items }
{
    if items == 0 { 2 } else { 1 }
}

// value v, where those below it are counted
fn value_size(
    s: &[u8],
    names: &[usize; 16384],
    sizes: &[usize; 16384],
    sums: &mut [usize; 2056],
    v: u32,
    limit: usize,
) -> usize
    requires checked { Checked s.now }
    requires filled { Filled 0 (string_long s.now limit) names.now (strings s.now) }
    requires filled_2 { Filled 0 (value_long s.now limit) sizes.now v }
    requires sums { Sums s.now limit sums.old }
    ensures value { result ≡ value_long s.now limit v }
    ensures sums_2 { Sums s.now limit sums.new }
{
    let h = words_of(s, ValNo(v));
    if h.kind < 6 {
        return leaf_size(names, h.kind, h.first, h.items, limit);
    }
    let start = frame_size(h.items);
    run_size(
        s,
        names,
        sizes,
        sums,
        h.kind,
        h.first as usize,
        h.items as usize,
        start,
        limit,
    )
}

// how long each value's text is, up to the limit: what a value holds has lower numbers
pub fn value_sizes(s: &[u8], names: &[usize; 16384], limit: usize) -> [usize; 16384]
    requires checked { Checked s.now }
    requires filled { Filled 0 (string_long s.now limit) names.now (strings s.now) }
    ensures { Filled 0 (value_long s.now limit) result (values s.now) }
{
    let n = value_count(s);
    let mut sizes = [0usize; 16384];
    let mut sums = [0usize; 2056];
    for v in 0..n {
        sizes[v as usize] = value_size(s, names, &sizes, &mut sums, v, limit);
    }
    sizes
}
