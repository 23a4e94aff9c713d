// The verdict, and the points that made it in the lent list.
ghost use Rattle.std.specs.Prelude.{◌≤◌, ◌<◌};
ghost use Rattle.meaning.specs.Walk.{started};
ghost use Rattle.evaluator.specs.Asks.{Ready};
ghost use Rattle.carried.specs.Shows.{Points, Carries};

use super::list::{list_points, short};
use super::looks::look_of;
use super::scans::{scan_back, settle};
use super::{Carried, Look};
use evaluator::Call;
use meaning::{Env, NodeNo};
use rows::Stopped;

// how many points a yes at j lists
fn how_many(look: Look, j: usize, i: usize) -> usize
    requires { (j ≤ i) × (i < 16384) }
    ensures { Points look i j result }
{
    match look {
        Look::Formerly(_, _) => 1,
        Look::Previous(_, _) => 1,
        Look::Since(_, _, _) => i - j + 1,
    }
}

// the answer is settled first: until then the list may not change; failed anchors are then found once more, to list them
pub fn answer(
    s: &[u8],
    work: &mut [u64],
    call: Call,
    env: Env,
    n: NodeNo,
    list: &mut [u64],
) -> Result<Carried, Stopped>
    requires ready { Ready s.now call env started work.old }
    requires asked_bound { call.asked < 16384 }
    ensures { Carries s.now call env n.0 list.old list.new result }
{
    let Some(look) = look_of(tables::node_at(s, n)) else {
        return Ok(Carried {
            verdict: false,
            filled: 0,
        });
    };
    let found = settle(s, work, call, env, look, list)?;
    if let Some(j) = found.end {
        return list_points(list, j, how_many(look, j, call.asked));
    }
    if list.len() < found.failed {
        return Err(short());
    }
    if found.failed == 0 {
        return Ok(Carried {
            verdict: false,
            filled: 0,
        });
    }
    scan_back(s, work, call, env, look, list)?;
    Ok(Carried {
        verdict: false,
        filled: found.failed,
    })
}
