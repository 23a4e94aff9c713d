// The finished case of any unsorted one, put into a lent room of bytes; or refusal 1, 2 or 10.

#![tactic(auto)]

ghost use Rattle.std.specs.Prelude.{◌≡◌, Bool, true, ◌≤◌, eqb, length};
ghost use Rattle.meaning.specs.Tests.{◌and◌};
ghost use Rattle.meaning.specs.Case.{lists};
ghost use Rattle.meaning.specs.Check.{bodies, mosts};
ghost use Rattle.encode.specs.Unsorted.{texts, finished};
ghost use Rattle.joining.specs.Order.{Sorted};
ghost use Rattle.finish.specs.Sizes.{Sized};
ghost use Rattle.making.specs.Made.{FinishedSize, Makes};

use finish::{finish, part_size, text_bytes};
use joining::join_strings;
use meaning::Refusal;
use stringcheck::{check_bodies, list_count, node_count, point_count, value_count, var_count};
use tables::wide;

// tables, and one mark a list word
fn has_tables(s: &[u8], marks: &[u8]) -> bool
    ensures { ◌≡◌ {A = Bool} result (bodies s.now and eqb (length marks.now) (lists s.now)) }
{
    check_bodies(s) && marks.len() == wide(list_count(s))
}

fn finished_size(s: &[u8], marks: &[u8], n: usize, total: usize) -> usize
    requires s_value { bodies s.now ≡ true }
    requires sized { Sized s.now n total }
    ensures { FinishedSize s.now marks.now result }
{
    let mut size = 64;
    for k in 0..7 {
        size += part_size(s, marks, n, total, k);
    }
    size
}

// are the finished case's mosts kept?
fn keeps_mosts(s: &[u8], marks: &[u8], n: usize, size: usize) -> bool
    requires s_value { bodies s.now ≡ true }
    requires n_value { n ≡ length (texts s.now) }
    requires finished_size { FinishedSize s.now marks.now size }
    ensures { ◌≡◌ {A = Bool} result (mosts (finished s.now marks.now)) }
{
    let nodes = node_count(s) <= 1024 && var_count(s) <= 16;
    let points = point_count(s) <= 16384 && nodes;
    let values = value_count(s) <= 16384 && points;
    let strings = n <= 16384 && values;
    size <= 4194304 && strings
}

// with the strings in order
fn make_sorted(
    s: &[u8],
    marks: &[u8],
    order: &[u32],
    n: usize,
    room: &mut [u8],
) -> Result<usize, Refusal>
    requires s_value { (bodies s.now and eqb (length marks.now) (lists s.now)) ≡ true }
    requires sorted { Sorted s.now order.now n }
    requires n_bound { n ≤ 16384 }
    ensures { Makes s.now marks.now room.old room.new result }
{
    let total = text_bytes(s, order, n);
    let size = finished_size(s, marks, n, total);
    if !keeps_mosts(s, marks, n, size) {
        return Err(Refusal::TooLarge);
    }
    if room.len() < size {
        return Err(Refusal::BadLimits);
    }
    finish(s, marks, order, n, total, room);
    Ok(size)
}

// how many bytes the finished case has
pub fn make(s: &[u8], marks: &[u8], room: &mut [u8]) -> Result<usize, Refusal>
    ensures { Makes s.now marks.now room.old room.new result }
{
    if !has_tables(s, marks) {
        return Err(Refusal::BadContents);
    }
    let mut order = [0u32; 16384];
    let Some(n) = join_strings(s, &mut order) else {
        return Err(Refusal::TooLarge);
    };
    make_sorted(s, marks, &order, n, room)
}
