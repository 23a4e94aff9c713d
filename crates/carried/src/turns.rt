// What a point is to a scan, by the questions asked there.
ghost use Rattle.std.specs.Prelude.{◌≤◌, ◌<◌};
ghost use Rattle.meaning.specs.Walk.{started};
ghost use Rattle.evaluator.specs.Asks.{Ready};
ghost use Rattle.carried.specs.Shows.{Asks, Lasts, Bodies, Anchors, Turns};

use super::{Look, Turn};
use evaluator::{Call, Outcome};
use meaning::{Env, NodeNo};
use rows::Stopped;
use rows::meters::started;

// the verdict of a node at a point, from 0 steps and 0 rows
pub fn ask(s: &[u8], work: &mut [u64], call: Call, env: Env, n: NodeNo, i: usize) -> Outcome<bool>
    requires ready { Ready s.now call env started work.old }
    requires i_bound { i < 16384 }
    ensures { Asks s.now call env n.0 i result }
{
    let afresh = started();
    evaluator::eval_condition(s, work, call, env, n, i, afresh)
}

// left at j + 1 up to the point asked about, to the first no
fn left_after(
    s: &[u8],
    work: &mut [u64],
    call: Call,
    env: Env,
    l: NodeNo,
    j: usize,
) -> Result<Turn, Stopped>
    requires ready { Ready s.now call env started work.old }
    requires j_le_asked { (j ≤ call.asked) × (call.asked < 16384) }
    ensures { Lasts s.now call env l.0 j result }
{
    for k in j..call.asked {
        let (b, _) = ask(s, work, call, env, l, k + 1)?;
        if !b {
            return Ok(Turn::Fails(k + 1));
        }
    }
    Ok(Turn::Carries)
}

// a body's yes carries
fn body_turn(
    s: &[u8],
    work: &mut [u64],
    call: Call,
    env: Env,
    x: NodeNo,
    j: usize,
) -> Result<Turn, Stopped>
    requires ready { Ready s.now call env started work.old }
    requires j_bound { j < 16384 }
    ensures { Bodies s.now call env x.0 j result }
{
    let (b, _) = ask(s, work, call, env, x, j)?;
    Ok(if b { Turn::Carries } else { Turn::Passes })
}

// right at j, and where it holds left after it
fn anchor_turn(
    s: &[u8],
    work: &mut [u64],
    call: Call,
    env: Env,
    l: NodeNo,
    r: NodeNo,
    j: usize,
) -> Result<Turn, Stopped>
    requires ready { Ready s.now call env started work.old }
    requires j_le_asked { (j ≤ call.asked) × (call.asked < 16384) }
    ensures { Anchors s.now call env l.0 r.0 j result }
{
    let (b, _) = ask(s, work, call, env, r, j)?;
    if !b {
        return Ok(Turn::Passes);
    }
    left_after(s, work, call, env, l, j)
}

pub fn turn_at(
    s: &[u8],
    work: &mut [u64],
    call: Call,
    env: Env,
    look: Look,
    j: usize,
) -> Result<Turn, Stopped>
    requires ready { Ready s.now call env started work.old }
    requires j_le_asked { (j ≤ call.asked) × (call.asked < 16384) }
    ensures { Turns s.now call env look j result }
{
    match look {
        Look::Formerly(_, x) => body_turn(s, work, call, env, x, j),
        Look::Previous(_, x) => body_turn(s, work, call, env, x, j),
        Look::Since(l, r, _) => anchor_turn(s, work, call, env, l, r, j),
    }
}
