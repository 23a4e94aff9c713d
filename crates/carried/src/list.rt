// Points put into the lent list.
ghost use Rattle.std.specs.Prelude.{◌≡◌, ◌+◌, ◌≤◌, set};
ghost use Rattle.meaning.specs.Case.{places};
ghost use Rattle.carried.specs.Shows.{laid, too_short, PutTwo, Lists};

use super::Carried;
use meaning::Refusal;
use rows::Stopped;
use rows::meters::started;

// the list has no room for its points; nothing is told as spent
pub fn short() -> Stopped
    ensures { result ≡ too_short }
{
    Stopped {
        refusal: Refusal::ListTooShort,
        meter: started(),
    }
}

// a cell, if the list is so long
fn put(list: &mut [u64], at: usize, point: usize)
    ensures { list.new ≡ set list.old at point }
{
    if list.len() <= at {
        return;
    }
    list[at] = point as u64;
}

// two cells, as far as the list goes
pub fn put_two(list: &mut [u64], at: usize, first: usize, second: usize)
    requires { at ≤ 65536 }
    ensures { PutTwo list.old at first second list.new }
{
    put(list, at, first);
    put(list, at + 1, second);
}

// n points from j on, as many as fit
fn put_points(list: &mut [u64], j: usize, n: usize)
    requires { j + n ≤ 16384 }
    ensures { list.new ≡ laid (places j 1 n) list.old }
{
    for k in 0..n {
        put(list, k, j + k);
    }
}

// a yes, made by n points from j on
pub fn list_points(list: &mut [u64], j: usize, n: usize) -> Result<Carried, Stopped>
    requires { j + n ≤ 16384 }
    ensures { Lists j n list.old list.new result }
{
    if list.len() < n {
        return Err(short());
    }
    put_points(list, j, n);
    Ok(Carried {
        verdict: true,
        filled: n,
    })
}
