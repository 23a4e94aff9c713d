// The table of a case: a line for each point.
ghost use Rattle.std.specs.Prelude.{◌≡◌};
ghost use Rattle.meaning.specs.Check.{Checked};
ghost use Rattle.calls.specs.Promises.{Answers};
ghost use Rattle.bench.specs.Table.{asking_of, question_at};

use crate::plan::{Asking, plan_of};
use crate::print;
use calls::{Answer, Said};
use meaning::Limits;
use std::io;

// the last node at a point, all variables unbound
fn at_point(case: &[u8], asking: Asking, point: usize, work: &mut [u64]) -> Said<Answer>
    requires checked { Checked case.now }
    requires asking_value { asking ≡ asking_of case.now }
    ensures { Answers (question_at case.now point work.old) work.new result }
{
    let unbound = [0u64; 32];
    let cells = 2 * asking.vars;
    let limits = Limits {
        steps: 1000000,
        room: 256,
    };
    calls::checked::ask(case, point, asking.node, &unbound[..cells], limits, work)
}

// the workspace has 2 cells for each of 16 variables in 256 rows
fn at_points(rt: &impl Print, case: &[u8], asking: Asking) -> io::Result<()>
    requires checked { Checked case.now }
    requires asking_value { asking ≡ asking_of case.now }
{
    let mut work = [0u64; 8192];
    for point in 0..asking.points {
        let said = at_point(case, asking, point, &mut work);
        print::line(rt, point, said)?;
    }
    Ok(())
}

// the table, or why there is none
pub fn print_table(rt: &impl Print, case: &[u8]) -> io::Result<()> {
    match plan_of(case) {
        Err(refusal) => print::refused(rt, refusal),
        Ok(asking) => {
            print::heading(rt)?;
            at_points(rt, case, asking)
        }
    }
}
