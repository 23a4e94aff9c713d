// The scans, point by point.
ghost use Rattle.std.specs.Prelude.{◌<◌};
ghost use Rattle.meaning.specs.Walk.{started};
ghost use Rattle.evaluator.specs.Asks.{Ready};
ghost use Rattle.carried.specs.Shows.{Downed, Backed, Known, Precedes};

use super::list::put_two;
use super::looks::window_of;
use super::turns::{ask, turn_at};
use super::{Look, Scan, Turn};
use evaluator::Call;
use meaning::{Env, Interval, NodeNo, Window};
use rows::Stopped;

// from the point asked about down to 0, to the first that carries; failed anchors go into the list, as many as fit
fn scan_down(
    s: &[u8],
    work: &mut [u64],
    call: Call,
    env: Env,
    look: Look,
    list: &mut [u64],
) -> Result<Scan, Stopped>
    requires ready { Ready s.now call env started work.old }
    requires asked_bound { call.asked < 16384 }
    ensures { Downed s.now call env look list.old list.new result }
{
    let within = window_of(look);
    let span = numbers::seconds(within);
    let here = tables::time_at(s, call.asked);
    let mut failed = 0;
    for j in (0..call.asked + 1).rev() {
        let then = tables::time_at(s, j);
        match numbers::window(span, here, then) {
            Window::Inside => {
                let turn = turn_at(s, work, call, env, look, j)?;
                match turn {
                    Turn::Passes => {}
                    Turn::Carries => {
                        return Ok(Scan {
                            end: Some(j),
                            failed,
                        });
                    }
                    Turn::Fails(k) => {
                        put_two(list, failed, j, k);
                        failed += 2;
                    }
                }
            }
            Window::TooOld | Window::Later => {}
        }
    }
    Ok(Scan { end: None, failed })
}

// the point before, if it is there and in the window, and carries
fn one_before(
    s: &[u8],
    work: &mut [u64],
    call: Call,
    env: Env,
    x: NodeNo,
    within: Interval,
) -> Result<Option<usize>, Stopped>
    requires ready { Ready s.now call env started work.old }
    requires asked_bound { call.asked < 16384 }
    ensures { Precedes s.now call env x.0 within result }
{
    let Some(j) = matching::previous_point(s, within, call.asked) else {
        return Ok(None);
    };
    let (b, _) = ask(s, work, call, env, x, j)?;
    Ok(if b { Some(j) } else { None })
}

pub fn scan_back(
    s: &[u8],
    work: &mut [u64],
    call: Call,
    env: Env,
    look: Look,
    list: &mut [u64],
) -> Result<Scan, Stopped>
    requires ready { Ready s.now call env started work.old }
    requires asked_bound { call.asked < 16384 }
    ensures { Backed s.now call env look list.old list.new result }
{
    if let Look::Previous(within, x) = look {
        let end = one_before(s, work, call, env, x, within)?;
        return Ok(Scan { end, failed: 0 });
    }
    scan_down(s, work, call, env, look, list)
}

// a scan that lists nothing
pub fn settle(
    s: &[u8],
    work: &mut [u64],
    call: Call,
    env: Env,
    look: Look,
    list: &mut [u64],
) -> Result<Scan, Stopped>
    requires ready { Ready s.now call env started work.old }
    requires asked_bound { call.asked < 16384 }
    ensures { Known s.now call env look list.old list.new result }
{
    scan_back(s, work, call, env, look, &mut list[..0])
}
