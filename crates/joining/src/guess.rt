// An order of strings that is likely: what is made of it is checked, so nothing rests on it but that it ends.
ghost use Rattle.std.specs.Prelude.{◌≡◌, ◌+◌, ◌<◌, ◌≤◌, true, length};
ghost use Rattle.meaning.specs.Check.{bodies};
ghost use Rattle.joining.specs.Guess.{Beyond};

use super::text_in;
use meaning::StrNo;
use stringcheck::is_before;

// ---- tables: nothing stands outside of them

pub fn entry_in<T: Copy + Default>(table: &[T], i: usize) -> T {
    if i < table.len() {
        table[i]
    } else {
        T::default()
    }
}

pub fn put_entry<T: Copy>(table: &mut [T], i: usize, entry: T) {
    if i < table.len() {
        table[i] = entry;
    }
}

// ---- entries: a key of 48 bits, whether it leaves something to tell, whether a group begins here, the place of a
// string among those kept

pub fn place_in(entry: u64) -> usize {
    (entry % 16384) as usize
}

// the key, and whether more is to tell
fn told_by(entry: u64) -> u64 {
    entry / 32768
}

fn begins_group(entry: u64) -> bool {
    entry / 16384 % 2 == 1
}

fn group_begun(entry: u64) -> u64 {
    entry / 32768 * 32768 + 16384 + entry % 16384
}

fn entry_of(key: u64, more: bool, entry: u64) -> u64
    requires { key ≤ 281474976710655 }
{
    let told = if more { 32768 } else { 0 };
    key * 65536 + told + entry % 16384
}

// an entry's string
fn string_by(kept: &[u32], entry: u64) -> StrNo {
    StrNo(entry_in(kept, place_in(entry)))
}

// ---- keys: what six bytes tell

// six bytes as one number, the first the highest
fn six(a: u8, b: u8, c: u8, d: u8, e: u8, f: u8) -> u64
    ensures { result ≤ 281474976710655 }
{
    let high = (c as u64) + 256 * ((b as u64) + 256 * (a as u64));
    let low = (f as u64) + 256 * ((e as u64) + 256 * (d as u64));
    low + 16777216 * high
}

// the first six bytes, one more: nothing is before all of them
fn six_of(x: &[u8]) -> u64
    ensures { result ≤ 281474976710655 }
{
    let r = six(
        entry_in(x, 0),
        entry_in(x, 1),
        entry_in(x, 2),
        entry_in(x, 3),
        entry_in(x, 4),
        entry_in(x, 5),
    );
    if r < 281474976710654 {
        return r + 1;
    }
    281474976710654
}

// do six bytes leave something to tell? where it is longer, and where it ends with a byte 0
fn is_more(x: &[u8]) -> bool {
    let n = x.len();
    n != 0 && (6 < n || x[n - 1] == 0)
}

// how many bytes at the front are the same, up to so many
fn alike(x: &[u8], y: &[u8], most: usize) -> usize
    ensures { result ≤ most }
{
    let n = x.len().min(y.len()).min(most);
    for i in 0..n {
        if x[i] != y[i] {
            return i;
        }
    }
    n
}

// the six bytes after the start; what does not begin with it is before all of these, or after them
fn keyed(start: &[u8], x: &[u8], entry: u64) -> u64 {
    let few = start.len().min(x.len());
    let y = &x[..few];
    if start == y {
        let rest = &x[few..];
        let key = six_of(rest);
        return entry_of(key, key == 281474976710654 || is_more(rest), entry);
    }
    if is_before(y, start) {
        return entry_of(0, true, entry);
    }
    entry_of(281474976710655, true, entry)
}

// how many bytes of the first of a group others begin with: its last, the one half way to it, and so on
fn start_size(
    s: &[u8],
    first: &[u8],
    kept: &[u32],
    table: &[u64; 16384],
    low: usize,
    high: usize,
) -> usize
    requires s_value { bodies s.now ≡ true }
    requires beyond { Beyond low high }
    ensures { result ≤ length first.now }
{
    let mut most = first.len();
    let mut k = high - low;
    // a while: k is halved
    while 1 < k {
        let entry = entry_in(table, low + k - 1);
        most = alike(first, text_in(s, string_by(kept, entry)), most);
        k = k / 2;
    }
    most
}

// new keys for a group
fn key_group(
    s: &[u8],
    kept: &[u32],
    start: &[u8],
    table: &mut [u64; 16384],
    low: usize,
    high: usize,
)
    requires { bodies s.now ≡ true }
{
    for i in low..high {
        let entry = entry_in(table, i);
        put_entry(
            table,
            i,
            keyed(start, text_in(s, string_by(kept, entry)), entry),
        );
    }
}

// ---- few entries: each goes down to its place

// a goes first? by their keys, and where these are the same and leave something to tell by their texts
fn goes_first(s: &[u8], kept: &[u32], a: u64, b: u64) -> bool
    requires { bodies s.now ≡ true }
{
    let x = told_by(a);
    let y = told_by(b);
    if x != y {
        return x < y;
    }
    x % 2 != 0
        && is_before(
            text_in(s, string_by(kept, a)),
            text_in(s, string_by(kept, b)),
        )
}

fn go_down(s: &[u8], kept: &[u32], table: &mut [u64; 16384], low: usize, from: usize)
    requires { bodies s.now ≡ true }
{
    let entry = entry_in(table, from);
    let mut i = from;
    // a while: it ends where the entry belongs
    while low < i && goes_first(s, kept, entry, entry_in(table, i - 1)) {
        let other = entry_in(table, i - 1);
        put_entry(table, i, other);
        i -= 1;
    }
    put_entry(table, i, entry);
}

fn go_down_all(s: &[u8], kept: &[u32], table: &mut [u64; 16384], low: usize, high: usize)
    requires { bodies s.now ≡ true }
{
    for i in low..high {
        go_down(s, kept, table, low, i);
    }
}

// nothing is left to tell: each is a group
fn end_groups(table: &mut [u64; 16384], low: usize, high: usize) {
    for i in low..high {
        let entry = entry_in(table, i);
        put_entry(table, i, group_begun(entry));
    }
}

// ---- few runs: those that fall are turned, and all are merged

// where an entry's key first ends a run that begins at low, by itself and the key before it
fn end_where<F: Fn(u64, u64) -> bool>(
    table: &[u64; 16384],
    low: usize,
    high: usize,
    ends: F,
) -> usize
    requires some { low < high }
    requires callable { F.IsAlwaysCallable ends }
    ensures { (low < result) × (result ≤ high) }
{
    for i in low + 1..high {
        if ends(told_by(entry_in(table, i - 1)), told_by(entry_in(table, i))) {
            return i;
        }
    }
    high
}

fn rising_end(table: &[u64; 16384], low: usize, high: usize) -> usize
    requires { low < high }
    ensures { (low < result) × (result ≤ high) }
{
    end_where(table, low, high, |before, key| key < before)
}

fn falling_end(table: &[u64; 16384], low: usize, high: usize) -> usize
    requires { low < high }
    ensures { (low < result) × (result ≤ high) }
{
    end_where(table, low, high, |before, key| before < key)
}

// the end of the run at low; where one rises it is not long enough to fall
fn run_end(table: &[u64; 16384], low: usize, high: usize) -> usize
    requires { low < high }
    ensures { (low < result) × (result ≤ high) }
{
    rising_end(table, low, high).max(falling_end(table, low, high))
}

// are there few runs?
fn has_few_runs(table: &[u64; 16384], low: usize, high: usize) -> bool {
    let mut i = low;
    for _ in 0..40 {
        if high <= i {
            return true;
        }
        i = run_end(table, i, high);
    }
    high <= i
}

// the entries of a part, the last first
fn turn(table: &mut [u64; 16384], low: usize, high: usize) {
    let mut i = low;
    let mut j = high;
    // a while: two places move towards each other
    while i < j {
        j -= 1;
        let a = entry_in(table, i);
        let b = entry_in(table, j);
        put_entry(table, i, b);
        put_entry(table, j, a);
        i += 1;
    }
}

// a run, where it falls
fn turn_run(table: &mut [u64; 16384], low: usize, high: usize)
    requires { low < high }
{
    if rising_end(table, low, high) != high {
        turn(table, low, high);
    }
}

fn turn_falling(table: &mut [u64; 16384], low: usize, high: usize) {
    let mut i = low;
    // a while: each turn goes on where a run ended
    while i < high {
        let end = run_end(table, i, high);
        turn_run(table, i, end);
        i = end;
    }
}

// two runs as one
fn merge_runs(from: &[u64; 16384], to: &mut [u64; 16384], low: usize, middle: usize, high: usize) {
    let mut i = low;
    let mut j = middle;
    for k in low..high {
        let a = entry_in(from, i);
        let b = entry_in(from, j);
        if i < middle && (high <= j || told_by(a) <= told_by(b)) {
            put_entry(to, k, a);
            i = i.wrapping_add(1);
        } else {
            put_entry(to, k, b);
            j = j.wrapping_add(1);
        }
    }
}

fn second_end(table: &[u64; 16384], middle: usize, high: usize) -> usize
    requires { middle ≤ high }
    ensures { (middle ≤ result) × (result ≤ high) }
{
    if middle == high {
        high
    } else {
        rising_end(table, middle, high)
    }
}

// runs, two and two
fn merge_pass(from: &[u64; 16384], to: &mut [u64; 16384], low: usize, high: usize) {
    let mut i = low;
    // a while: each turn goes on where a run ended
    while i < high {
        let middle = rising_end(from, i, high);
        let end = second_end(from, middle, high);
        merge_runs(from, to, i, middle, end);
        i = end;
    }
}

fn merge_all(table: &mut [u64; 16384], other: &mut [u64; 16384], low: usize, high: usize)
    requires { low < high }
{
    turn_falling(table, low, high);
    for _ in 0..3 {
        if rising_end(table, low, high) == high {
            return;
        }
        merge_pass(table, other, low, high);
        merge_pass(other, table, low, high);
    }
}

// ---- many: by their digits, the lowest first

fn count_digits<F: Fn(u64) -> usize>(
    table: &[u64; 16384],
    low: usize,
    high: usize,
    digit: &F,
    counts: &mut [u32; 512],
)
    requires { F.IsAlwaysCallable digit.now }
{
    for i in low..high {
        let at = digit(entry_in(table, i));
        let many = entry_in(counts, at);
        put_entry(counts, at, many.wrapping_add(1));
    }
}

// how many have a lower digit
fn add_counts(counts: &mut [u32; 512]) {
    let mut sum = 0u32;
    for count in counts.iter_mut() {
        let many = *count;
        *count = sum;
        sum = sum.wrapping_add(many);
    }
}

fn move_digits<F: Fn(u64) -> usize>(
    from: &[u64; 16384],
    to: &mut [u64; 16384],
    low: usize,
    high: usize,
    digit: &F,
    counts: &mut [u32; 512],
)
    requires { F.IsAlwaysCallable digit.now }
{
    for i in low..high {
        let entry = entry_in(from, i);
        let at = digit(entry);
        let many = entry_in(counts, at);
        put_entry(counts, at, many.wrapping_add(1));
        put_entry(to, low.wrapping_add(many as usize), entry);
    }
}

fn digit_pass<F: Fn(u64) -> usize>(
    from: &[u64; 16384],
    to: &mut [u64; 16384],
    low: usize,
    high: usize,
    digit: F,
)
    requires { F.IsAlwaysCallable digit }
{
    let mut counts = [0u32; 512];
    count_digits(from, low, high, &digit, &mut counts);
    add_counts(&mut counts);
    move_digits(from, to, low, high, &digit, &mut counts);
}

fn by_digits(table: &mut [u64; 16384], other: &mut [u64; 16384], low: usize, high: usize) {
    digit_pass(table, other, low, high, |e| ((e >> 15) % 512) as usize);
    digit_pass(other, table, low, high, |e| ((e >> 24) % 256) as usize);
    digit_pass(table, other, low, high, |e| ((e >> 32) % 256) as usize);
    digit_pass(other, table, low, high, |e| ((e >> 40) % 256) as usize);
    digit_pass(table, other, low, high, |e| ((e >> 48) % 256) as usize);
    digit_pass(other, table, low, high, |e| ((e >> 56) % 256) as usize);
}

// ---- groups: entries whose keys are the same and leave something to tell

// the end of the group at low
fn group_end(table: &[u64; 16384], low: usize, many: usize) -> usize
    requires { low < many }
    ensures { (low < result) × (result ≤ many) }
{
    let told = told_by(entry_in(table, low));
    for i in low + 1..many {
        let entry = entry_in(table, i);
        if told % 2 == 0 || told_by(entry) != told || begins_group(entry) {
            return i;
        }
    }
    many
}

// new keys, where there are more than a few
fn key_some(s: &[u8], kept: &[u32], table: &mut [u64; 16384], low: usize, high: usize)
    requires s_value { bodies s.now ≡ true }
    requires beyond { Beyond low high }
{
    if high - low < 13 {
        return;
    }
    let first = text_in(s, string_by(kept, entry_in(table, low)));
    let most = start_size(s, first, kept, table, low, high);
    key_group(s, kept, &first[..most], table, low, high);
}

fn sort_keys(table: &mut [u64; 16384], other: &mut [u64; 16384], low: usize, high: usize)
    requires { low < high }
{
    if has_few_runs(table, low, high) {
        merge_all(table, other, low, high);
    } else {
        by_digits(table, other, low, high);
    }
}

// a group by what its strings have behind what they have in common; is there one?
fn sort_group(
    s: &[u8],
    kept: &[u32],
    table: &mut [u64; 16384],
    other: &mut [u64; 16384],
    low: usize,
    high: usize,
) -> bool
    requires s_value { bodies s.now ≡ true }
    requires beyond { Beyond low high }
{
    if high - low < 2 {
        return false;
    }
    key_some(s, kept, table, low, high);
    if high - low < 64 {
        go_down_all(s, kept, table, low, high);
        end_groups(table, low, high);
        return true;
    }
    sort_keys(table, other, low, high);
    let first = entry_in(table, low);
    put_entry(table, low, group_begun(first));
    true
}

// all groups; is there one?
fn sort_groups(
    s: &[u8],
    kept: &[u32],
    table: &mut [u64; 16384],
    other: &mut [u64; 16384],
    many: usize,
) -> bool
    requires s_value { bodies s.now ≡ true }
    requires many_bound { many ≤ 16384 }
{
    let mut any = false;
    let mut low = 0;
    // a while: each turn goes on where a group ended
    while low < many {
        let high = group_end(table, low, many);
        any |= sort_group(s, kept, table, other, low, high);
        low = high;
    }
    any
}

// all as one group
fn put_all(table: &mut [u64; 16384], many: usize) {
    for i in 0..many {
        put_entry(table, i, entry_of(0, true, (i % 16384) as u64));
    }
}

// the places of the first so many of those kept, in an order that is likely that of their texts; as they are where
// they rise
pub fn guess(s: &[u8], kept: &[u32], sorts: bool, many: usize, table: &mut [u64; 16384])
    requires { bodies s.now ≡ true }
{
    put_all(table, many);
    if !sorts || 16384 < many {
        return;
    }
    let mut other = [0u64; 16384];
    for _ in 0..24 {
        if !sort_groups(s, kept, table, &mut other, many) {
            return;
        }
    }
}
