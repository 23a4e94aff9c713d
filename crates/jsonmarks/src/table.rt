// Marks of names, in cells: the mark of a name that was kept is set.
ghost use Rattle.std.specs.Prelude.{◌≡◌, ◌+◌, ◌^◌, ◌/◌, ◌≤◌, ◌<◌, length};
ghost use Rattle.jsonmarks.specs.Marks.{DigestTold, SlotTold, MarkDue, MarkTold, MarkSet, Outside, AllDue, AllSet, SizeTold};

use jsonread::names::{Cursor, next_byte};

// how many digests there are: 2^40, and how many of them have a mark in the same bit of a cell, 2^34
const DIGESTS: u64 = 1 << 40;

const DIGESTS_OF_A_BIT: u64 = 1 << 34;

// a number of the bytes that a string stands for
pub fn digest(line: &[u8], at: usize) -> u64
    requires { at ≤ length line.now }
    ensures { DigestTold line.now at result }
{
    let mut x = Cursor::at(at + 1);
    let mut sum = 0;
    while let Some((b, next)) = next_byte(line, x) {
        sum = (sum * 1000003 + u64::from(b)) % DIGESTS;
        x = next;
    }
    sum
}

// the mark of a digest in its cell
fn bit_of(d: u64) -> u64
    requires { d < 1099511627776 }
    ensures { result ≡ 2 ^ (d / 17179869184) }
{
    1u64 << (d / DIGESTS_OF_A_BIT)
}

// the cell of a digest, of so many
fn slot_of(d: u64, size: usize) -> usize
    requires { 0 < size }
    ensures { SlotTold d size result }
{
    d as usize % size
}

// may a name of this digest be among those kept?
pub fn is_marked(names: &[u64], from: usize, size: usize, d: u64) -> bool
    requires { MarkDue names.now from size d }
    ensures { MarkTold names.now from size d result }
{
    let k = from + slot_of(d, size);
    (names[k] >> (d / DIGESTS_OF_A_BIT)) % 2 == 1
}

// the mark of a digest is set
pub fn mark(names: &mut [u64], from: usize, size: usize, d: u64)
    requires { MarkDue names.old from size d }
    ensures { MarkSet names.old names.new from size d }
{
    let k = from + slot_of(d, size);
    names[k] |= bit_of(d);
}

// no marks; that marks are left would do no harm
pub fn wipe(names: &mut [u64], from: usize, size: usize)
    requires { from + size ≤ length names.old }
    ensures { Outside names.old names.new from size }
{
    names[from..from + size].fill(0);
}

// the marks of all names in these cells
pub fn mark_all(line: &[u8], names: &mut [u64], first: usize, end: usize, from: usize, size: usize)
    requires { AllDue names.old first end from size }
    ensures { AllSet line.now names.old names.new first end from size }
{
    for k in first..end {
        let at = names[k] as usize;
        if at < line.len() {
            mark(names, from, size, digest(line, at));
        }
    }
}

// how many cells have marks, if they are those of the object whose first cell this is; else 0
pub fn size_of(line: &[u8], names: &[u64], first: usize) -> usize
    requires { 8 ≤ length names.now }
    ensures { SizeTold line.now names.now first result }
{
    let cells = names.len();
    let owner = names[cells - 1] as usize;
    let size = names[cells - 2] as usize;
    if owner <= line.len() || owner - line.len() - 1 != first || cells / 4 - 2 < size {
        return 0;
    }
    size
}
