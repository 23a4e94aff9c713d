// The calls for C, as include/galivodern.h declares them: numbers and slices only, the answer told in cells that the caller lends.

#![tactic(auto)]

ghost use Rattle.std.specs.Prelude.{◌≡◌, []};
ghost use Rattle.std.proofs.Common.{to_z};
ghost use Rattle.std.specs.Int.{w64};
ghost use Rattle.meaning.specs.declared.ArithOp.TheVariants.{Sub};
ghost use Rattle.meaning.specs.Number.{calculate, window};
ghost use Rattle.meaning.specs.Check.{Checked};
ghost use Rattle.meaning.specs.Calls.{ask_call, rows_call};
ghost use Rattle.meaning.specs.Carried.{carried_call};
ghost use Rattle.calls.specs.Promises.{call_of};
ghost use Rattle.telling.specs.Seen.{Checks, Tells, WriteTells, ImportTells, ExportTells, seen, import_seen_as, answer_cell, sort_cell, count_cell, no_cell, carried_cell, filled_cell};
ghost use Rattle.capi.specs.Window.{window_number};

use calls::checked;
use meaning::{ArithOp, Limits, NodeNo, Window};
use telling::{
    of_answer, of_carried, of_rows, tell, tell_contents, tell_exported, tell_imported, tell_written,
};

// the layer's own complaint: the cells for the answer are too few
const TOO_FEW: u64 = 100;

// the answer's cell, steps, rows held, and the call's own fourth
const TOLD_CELLS: usize = 4;

// bytes of the trace and of its marks, the place of a fault, and of the first of two equal names
const IMPORTED_CELLS: usize = 4;

// how many bytes were written
const WRITTEN_CELLS: usize = 1;

#[unsafe(no_mangle)]
pub extern "C" fn galivodern_check(file: &[u8], contents: &mut [u64]) -> u64
    ensures { Checks file.now contents.old contents.new result }
{
    if contents.len() < 5 {
        return TOO_FEW;
    }
    match calls::check(file) {
        Ok(found) => tell_contents(found, contents),
        Err(refusal) => refusals::number(refusal),
    }
}

#[unsafe(no_mangle)]
pub extern "C" fn galivodern_ask(
    file: &[u8],
    point: usize,
    node: u32,
    start: &[u64],
    steps: u64,
    room: usize,
    work: &mut [u64],
    told: &mut [u64],
) -> u64
    ensures { Tells answer_cell sort_cell (ask_call (call_of file.now point node start.now (record { steps = steps; room = room }) work.old)) work.old [] told.old (seen result work.new [] told.new) }
{
    if told.len() < TOLD_CELLS {
        return TOO_FEW;
    }
    let limits = Limits { steps, room };
    let said = calls::ask(file, point, NodeNo(node), start, limits, work);
    tell(of_answer(said), told)
}

#[unsafe(no_mangle)]
pub extern "C" fn galivodern_rows(
    file: &[u8],
    point: usize,
    node: u32,
    start: &[u64],
    steps: u64,
    room: usize,
    work: &mut [u64],
    binders: &[u32],
    output: &mut [u64],
    told: &mut [u64],
) -> u64
    ensures { Tells count_cell no_cell (rows_call binders.now output.old (call_of file.now point node start.now (record { steps = steps; room = room }) work.old)) work.old output.old told.old (seen result work.new output.new told.new) }
{
    if told.len() < TOLD_CELLS {
        return TOO_FEW;
    }
    let limits = Limits { steps, room };
    let said = calls::rows(
        file,
        point,
        NodeNo(node),
        start,
        limits,
        binders,
        work,
        output,
    );
    tell(of_rows(said), told)
}

#[unsafe(no_mangle)]
pub extern "C" fn galivodern_checked_ask(
    file: &[u8],
    point: usize,
    node: u32,
    start: &[u64],
    steps: u64,
    room: usize,
    work: &mut [u64],
    told: &mut [u64],
) -> u64
    requires { Checked file.now }
    ensures { Tells answer_cell sort_cell (ask_call (call_of file.now point node start.now (record { steps = steps; room = room }) work.old)) work.old [] told.old (seen result work.new [] told.new) }
{
    if told.len() < TOLD_CELLS {
        return TOO_FEW;
    }
    let limits = Limits { steps, room };
    let said = checked::ask(file, point, NodeNo(node), start, limits, work);
    tell(of_answer(said), told)
}

#[unsafe(no_mangle)]
pub extern "C" fn galivodern_checked_rows(
    file: &[u8],
    point: usize,
    node: u32,
    start: &[u64],
    steps: u64,
    room: usize,
    work: &mut [u64],
    binders: &[u32],
    output: &mut [u64],
    told: &mut [u64],
) -> u64
    requires { Checked file.now }
    ensures { Tells count_cell no_cell (rows_call binders.now output.old (call_of file.now point node start.now (record { steps = steps; room = room }) work.old)) work.old output.old told.old (seen result work.new output.new told.new) }
{
    if told.len() < TOLD_CELLS {
        return TOO_FEW;
    }
    let limits = Limits { steps, room };
    let said = checked::rows(
        file,
        point,
        NodeNo(node),
        start,
        limits,
        binders,
        work,
        output,
    );
    tell(of_rows(said), told)
}

#[unsafe(no_mangle)]
pub extern "C" fn galivodern_carried(
    file: &[u8],
    point: usize,
    node: u32,
    start: &[u64],
    steps: u64,
    room: usize,
    work: &mut [u64],
    list: &mut [u64],
    told: &mut [u64],
) -> u64
    ensures { Tells carried_cell filled_cell (carried_call list.old (call_of file.now point node start.now (record { steps = steps; room = room }) work.old)) work.old list.old told.old (seen result work.new list.new told.new) }
{
    if told.len() < TOLD_CELLS {
        return TOO_FEW;
    }
    let limits = Limits { steps, room };
    let said = calls::carried(file, point, NodeNo(node), start, limits, work, list);
    tell(of_carried(said), told)
}

#[unsafe(no_mangle)]
pub extern "C" fn galivodern_checked_carried(
    file: &[u8],
    point: usize,
    node: u32,
    start: &[u64],
    steps: u64,
    room: usize,
    work: &mut [u64],
    list: &mut [u64],
    told: &mut [u64],
) -> u64
    requires { Checked file.now }
    ensures { Tells carried_cell filled_cell (carried_call list.old (call_of file.now point node start.now (record { steps = steps; room = room }) work.old)) work.old list.old told.old (seen result work.new list.new told.new) }
{
    if told.len() < TOLD_CELLS {
        return TOO_FEW;
    }
    let limits = Limits { steps, room };
    let said = checked::carried(file, point, NodeNo(node), start, limits, work, list);
    tell(of_carried(said), told)
}

#[unsafe(no_mangle)]
pub extern "C" fn galivodern_write(
    unsorted: &[u8],
    marks: &[u8],
    room: &mut [u8],
    output: &mut [u8],
    written: &mut [u64],
) -> u64
    ensures { WriteTells unsorted.now marks.now room.old output.old written.old (seen result room.new output.new written.new) }
{
    if written.len() < WRITTEN_CELLS {
        return TOO_FEW;
    }
    let said = casewrite::write(unsorted, marks, room, output);
    tell_written(said, written)
}

#[unsafe(no_mangle)]
pub extern "C" fn galivodern_import(
    text: &[u8],
    work: &mut [u64],
    trace: &mut [u8],
    marks: &mut [u8],
    told: &mut [u64],
) -> u64
    ensures { ImportTells text.now work.old trace.old marks.old told.old (import_seen_as result work.new trace.new marks.new told.new) }
{
    if told.len() < IMPORTED_CELLS {
        return TOO_FEW;
    }
    let said = jsonwrite::import::import(text, work, trace, marks);
    tell_imported(said, told)
}

#[unsafe(no_mangle)]
pub extern "C" fn galivodern_export(file: &[u8], output: &mut [u8], written: &mut [u64]) -> u64
    ensures { ExportTells file.now output.old written.old (seen result [] output.new written.new) }
{
    if written.len() < WRITTEN_CELLS {
        return TOO_FEW;
    }
    let said = jsonexport::export(file, output);
    tell_exported(said, written)
}

#[unsafe(no_mangle)]
pub extern "C" fn galivodern_window(span: u64, from: u64, to: u64) -> u64
    ensures { result ≡ window_number (window (to_z w64 span) (to_z w64 from) (to_z w64 to)) }
{
    match numbers::window(span, from, to) {
        Window::Inside => 0,
        Window::TooOld => 1,
        Window::Later => 2,
    }
}

#[unsafe(no_mangle)]
pub extern "C" fn galivodern_difference(from: u64, to: u64) -> u64
    ensures { to_z w64 result ≡ calculate Sub (to_z w64 from) (to_z w64 to) }
{
    numbers::calculate(ArithOp::Sub, from, to)
}
