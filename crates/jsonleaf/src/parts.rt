// How many parts an array or object has, where they end, and an object's names in order.
ghost use Rattle.std.specs.Prelude.{◌≡◌, ◌+◌, ◌≤◌, drop};
ghost use Rattle.jsontext.specs.Values.{value, array};
ghost use Rattle.jsonruns.specs.Good.{Good};
ghost use Rattle.jsoncount.specs.Sizes.{object_read};
ghost use Rattle.jsonview.specs.Room.{leaving};
ghost use Rattle.jsonadds.specs.Place.{Spare, CountTold, MemberGood, MemberEnds, CollectTold, SortTold, named_members};

use jsonadds::Many;
use jsonends::value_end;
use jsonnames::runs::gather;
use jsonroom::Next;
use jsonruns::{after_sign, first_part, part_after, string_end};
use jsonsort::keep;

// the run of so many parts is left free
pub fn after_run(next: &mut Next, count: usize)
    requires { next.old.member + count ≤ 4294967295 }
    ensures { next.new ≡ leaving next.old count }
{
    next.member += count;
}

// items, after the bracket
pub fn count_items(line: &[u8], at: usize, levels: u32) -> Many
    requires { Good line.now at (array (value levels) (drop at line.now)) }
    ensures { CountTold line.now at (array (value levels) (drop at line.now)) result }
{
    let mut count = 0;
    let mut part = first_part(line, at, b']');
    while let Ok(i) = part {
        count += 1;
        let end = value_end(line, i, levels);
        part = part_after(line, end, b']');
    }
    Many {
        count,
        end: part.unwrap_err(),
    }
}

// after a member whose name stands at `at`
fn member_end(line: &[u8], at: usize, levels: u32) -> usize
    requires { MemberGood levels line.now at }
    ensures { MemberEnds levels line.now at result }
{
    value_end(line, after_sign(line, string_end(line, at)), levels)
}

// an object's names, after its brace, in runs from cell `used` on
fn collect_names(line: &[u8], at: usize, levels: u32, names: &mut [u64], used: usize) -> Many
    requires good { Good line.now at (object_read levels (drop at line.now)) }
    requires spare { Spare (object_read levels (drop at line.now)) names.old used named_members }
    ensures { CollectTold levels line.now at (object_read levels (drop at line.now)) names.old names.new used result }
{
    let mut count = 0;
    let mut part = first_part(line, at, b'}');
    while let Ok(i) = part {
        let end = member_end(line, i, levels);
        part = part_after(line, end, b'}');
        keep(line, names, used, used + count, i);
        count += 1;
    }
    Many {
        count,
        end: part.unwrap_err(),
    }
}

// an object's names, after its brace, sorted from cell `used` on
pub fn sort_names(line: &[u8], at: usize, levels: u32, names: &mut [u64], used: usize) -> Many
    requires good { Good line.now at (object_read levels (drop at line.now)) }
    requires spare { Spare (object_read levels (drop at line.now)) names.old used named_members }
    ensures { SortTold levels line.now at (object_read levels (drop at line.now)) names.old names.new used result }
{
    let found = collect_names(line, at, levels, names, used);
    gather(line, names, used, used + found.count);
    found
}
