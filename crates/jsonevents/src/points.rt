// A point's record.
ghost use Rattle.std.specs.Prelude.{[], ◌∷◌, ◌+◌, ◌≤◌, length};
ghost use Rattle.laws.specs.Writing.{Writing};
ghost use Rattle.encode.specs.Words.{packed};
ghost use Rattle.jsonpieces.specs.Parts.{QuadSmall, NamesSmall, ValuesSmall, name_words, value_words, PointRoom, PointPut};

use jsonleaf::flats::{high_of, low_of};
use jsonpieces::{Body, EventValues};
use jsonroom::{Bodies, Next, put_pair};

// four words
fn put_quad(out: &mut [u8], at: usize, p: usize, q: usize, r: usize, s: usize)
    requires at_in_bounds { at + 16 ≤ length out.old }
    requires quad_small { QuadSmall p q r s }
    ensures { Writing out.old out.new at (packed (p ∷ q ∷ r ∷ s ∷ [])) }
{
    put_pair(out, at, p, q);
    put_pair(out, at + 8, r, s);
}

// time, namespace, action and kind
fn put_heading(out: &mut [u8], at: usize, time: u64, n: Next, spaces: usize)
    requires at_in_bounds { at + 24 ≤ length out.old }
    requires names_small { NamesSmall n spaces }
    ensures { Writing out.old out.new at (packed (name_words time n spaces)) }
{
    let action = n.string + spaces;
    put_quad(
        out,
        at,
        low_of(time) as usize,
        high_of(time) as usize,
        n.list,
        spaces,
    );
    put_pair(out, at + 16, action, action + 1);
}

// the four values, and the entities
fn put_ending(out: &mut [u8], at: usize, r: EventValues, list: usize, count: usize)
    requires at_in_bounds { at + 24 ≤ length out.old }
    requires values_small { ValuesSmall r list count }
    ensures { Writing out.old out.new at (packed (value_words r list count)) }
{
    put_quad(out, at, r.logged, r.context, r.principal, r.resource);
    put_pair(out, at + 16, list, count);
}

// the point of an event that began at `n`
pub fn put_point(out: &mut [u8], b: Bodies, next: &mut Next, time: u64, n: Next, r: Body)
    requires { PointRoom out.old b next.old n r }
    ensures { PointPut out.old out.new b next.old time n r next.new }
{
    let at = b.points + 48 * next.point;
    put_heading(out, at, time, n, r.spaces);
    put_ending(out, at + 24, r.values, r.list, r.count);
    next.point += 1;
}
