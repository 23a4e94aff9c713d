// The asking calls on a case that has passed the check, for callers that ask many questions of one case.
ghost use Rattle.std.specs.Prelude.{◌≡◌, Bool, ◌≤◌, ◌<◌, ◌*◌, leb, take};
ghost use Rattle.meaning.specs.Walk.{started, outcome};
ghost use Rattle.meaning.specs.Check.{Checked};
ghost use Rattle.meaning.specs.Calls.{all_under};
ghost use Rattle.rows.specs.Table.{Fit, rows_in};
ghost use Rattle.evaluator.specs.Asks.{Ready, rows_for, node_rows};
ghost use Rattle.calls.specs.Promises.{call_of, Answers, Rowed, Carrying};
ghost use Rattle.calls.specs.Given.{TellsAnswer, TellsRows, TellsCarried, Given};

use super::{Answer, Refused, Said, Spent, cost_of};
use evaluator::Call;
use meaning::{Env, Limits, Meter, NodeNo, Refusal};
use opening::{Wanted, is_aggregate, open};
use rows::Shape;

// the walk for an answer: an aggregate's number, else a condition's verdict
fn walk_answer(s: &[u8], part: &mut [u64], call: Call, env: Env, node: NodeNo) -> Said<Answer>
    requires ready { Ready s.now call env started part.old }
    requires asked_bound { call.asked < 16384 }
    ensures { TellsAnswer s.now call env node.0 result }
{
    let started = rows::meters::started();
    let asked = tables::node_at(s, node);
    if is_aggregate(asked) {
        let (bits, m) = evaluator::eval_agg_expr(s, part, call, env, node, call.asked, started)?;
        return Ok((Answer::Number(bits), cost_of(m)));
    }
    let (yes, m) = evaluator::eval_condition(s, part, call, env, node, call.asked, started)?;
    Ok((Answer::Verdict(yes), cost_of(m)))
}

pub fn ask(
    file: &[u8],
    point: usize,
    node: NodeNo,
    start: &[u64],
    limits: Limits,
    work: &mut [u64],
) -> Said<Answer>
    requires { Checked file.now }
    ensures { Answers (call_of file.now point node.0 start.now limits work.old) work.new result }
{
    let opening = open(
        file,
        Wanted::Answerable,
        point,
        node,
        start,
        limits,
        &work[..],
    )?;
    let cells = opening.cells;
    let said = walk_answer(file, &mut work[..cells], opening.call, opening.env, node);
    workspace::clear(work, cells);
    said
}

// whether all binders are variables of the case
fn all_under(vars: usize, binders: &[u32]) -> bool
    ensures { ◌≡◌ {A = Bool} result (all_under vars binders.now) }
{
    for x in binders {
        let x = tables::wide(*x);
        if vars <= x {
            return false;
        }
    }
    true
}

// whether so many cells of so many rows are at hand
fn fits(rows: usize, binders: usize, cells: usize) -> bool
    requires { rows ≤ 16384 }
    ensures { ◌≡◌ {A = Bool} result (leb (rows * (2 * binders)) cells) }
{
    rows == 0 || binders <= cells / (2 * rows)
}

// the rows held, projected on the binders, put into the output
fn give_rows(
    s: &[u8],
    work: &mut [u64],
    shape: Shape,
    m: Meter,
    binders: &[u32],
    output: &mut [u64],
) -> Said<usize>
    requires checked { Checked s.now }
    requires fit { Fit shape work.old × (m.held ≤ shape.room) }
    ensures { Given s.now shape.vars m binders.now (take m.held (rows_in shape work.old)) output.old output.new result }
{
    if !all_under(shape.vars, binders) {
        return Err(Refused {
            refusal: Refusal::BadOutput,
            spent: cost_of(m),
        });
    }
    let kept = rows::project_dedup_on(s, work, shape, 0, m.held, binders);
    if !fits(kept, binders.len(), output.len()) {
        return Err(Refused {
            refusal: Refusal::BadOutput,
            spent: cost_of(m),
        });
    }
    rows::output::write_rows(work, shape, 0, kept, binders, output);
    Ok((kept, cost_of(m)))
}

// the walk for rows, and what it gives
fn walk_rows(
    s: &[u8],
    part: &mut [u64],
    call: Call,
    env: Env,
    node: NodeNo,
    binders: &[u32],
    output: &mut [u64],
) -> Said<usize>
    requires ready { Ready s.now call env started part.old }
    requires asked_bound { call.asked < 16384 }
    ensures { TellsRows s.now call.vars binders.now output.old (outcome call.limits started (rows_for s.now call env (node_rows node.0 call.asked))) output.new result }
{
    let started = rows::meters::started();
    let m = evaluator::match_occurrences(s, part, call, env, node, call.asked, started)?;
    let shape = Shape {
        vars: call.vars,
        room: call.limits.room,
    };
    give_rows(s, part, shape, m, binders, output)
}

pub fn rows(
    file: &[u8],
    point: usize,
    node: NodeNo,
    start: &[u64],
    limits: Limits,
    binders: &[u32],
    work: &mut [u64],
    output: &mut [u64],
) -> Said<usize>
    requires { Checked file.now }
    ensures { Rowed (call_of file.now point node.0 start.now limits work.old) binders.now output.old work.new output.new result }
{
    let opening = open(
        file,
        Wanted::Condition,
        point,
        node,
        start,
        limits,
        &work[..],
    )?;
    let cells = opening.cells;
    let part = &mut work[..cells];
    let said = walk_rows(file, part, opening.call, opening.env, node, binders, output);
    workspace::clear(work, cells);
    said
}

// the scan of a node that looks back, and what it lists
fn walk_carried(
    s: &[u8],
    part: &mut [u64],
    call: Call,
    env: Env,
    node: NodeNo,
    list: &mut [u64],
) -> Said<carried::Carried>
    requires ready { Ready s.now call env started part.old }
    requires asked_bound { call.asked < 16384 }
    ensures { TellsCarried s.now call env node.0 list.old list.new result }
{
    let found = carried::answer(s, part, call, env, node, list)?;
    Ok((found, Spent { steps: 0, most: 0 }))
}

pub fn carried(
    file: &[u8],
    point: usize,
    node: NodeNo,
    start: &[u64],
    limits: Limits,
    work: &mut [u64],
    list: &mut [u64],
) -> Said<carried::Carried>
    requires { Checked file.now }
    ensures { Carrying (call_of file.now point node.0 start.now limits work.old) list.old work.new list.new result }
{
    let opening = open(
        file,
        Wanted::LooksBack,
        point,
        node,
        start,
        limits,
        &work[..],
    )?;
    let cells = opening.cells;
    let part = &mut work[..cells];
    let said = walk_carried(file, part, opening.call, opening.env, node, list);
    workspace::clear(work, cells);
    said
}
