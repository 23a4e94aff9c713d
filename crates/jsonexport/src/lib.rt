// The export call: a case's points as a JSON log over a lent output. The text's length is added up first, stopping where it passes the output's, and only what fits is written.

#![tactic(auto)]

ghost use Rattle.std.specs.Prelude.{◌+◌, ◌*◌, ◌<◌, ◌≤◌, min, ◌≡◌, length, get_or, ◌++◌};
ghost use Rattle.meaning.specs.Case.{points};
ghost use Rattle.meaning.specs.Check.{Checked};
ghost use Rattle.jsonput.specs.Runs.{comma, run_text};
ghost use Rattle.jsonpoints.specs.Lines.{word_text, entity_text, head_text, names_text, records_text, parties_text, entities_text, line_text, lines_text};
ghost use Rattle.jsonexport.specs.Long.{Spelled, Sized, Maybe, maybe_long, Words, Entity, Entities};
ghost use Rattle.jsonexport.specs.Call.{Exports, ExportsChecked};

use casecheck::check;
use jsonclear::all_clear;
use jsonpoints::put_lines;
use jsonsizes::{capped, counted, integer_size, string_sizes, value_sizes};
use jsontrace::ExportError;
use meaning::Refusal;
use stringcheck::point_count;
use tables::{halves, list_at, point_word};

// ---- how long the lines are: each function takes what was counted before, and no more than the limit

// so many bytes and entry n of a table
fn added(table: &[usize; 16384], n: u32, fixed: usize, total: usize, limit: usize) -> usize
    requires { n < 16384 }
    ensures { result ≡ min (total + fixed + get_or table.now n 0) limit }
{
    let first = capped(total, fixed, limit);
    capped(first, counted(table, n), limit)
}

// nothing where there is none
fn maybe_added(table: &[usize; 16384], n: u32, fixed: usize, total: usize, limit: usize) -> usize
    requires { Maybe n }
    ensures { result ≡ min (total + maybe_long table.now n fixed) limit }
{
    // u32::MAX stands for none
    if n == u32::MAX {
        capped(total, 0, limit)
    } else {
        added(table, n, fixed, total, limit)
    }
}

fn comma_size(i: usize) -> usize
    ensures { (result ≡ length (comma i)) × (result ≤ 1) }
{
    if i == 0 { 0 } else { 1 }
}

// a run of strings with commas between
fn words_size(
    s: &[u8],
    names: &[usize; 16384],
    first: usize,
    items: usize,
    total: usize,
    limit: usize,
) -> usize
    requires spelled { Spelled s.now limit names.now }
    requires words { Words s.now first items }
    requires bound { first + items < 8589934592 }
    ensures { result ≡ min (total + length (run_text (word_text s.now) first 1 items)) limit }
{
    let mut sum = capped(total, 0, limit);
    for i in 0..items {
        // what is too long already needs no more items
        if limit <= sum {
            return limit;
        }
        sum = added(names, list_at(s, first + i), comma_size(i), sum, limit);
    }
    sum
}

// an entity at place m of the lists, with its comma
fn entity_size(
    s: &[u8],
    names: &[usize; 16384],
    sizes: &[usize; 16384],
    i: usize,
    m: usize,
    total: usize,
    limit: usize,
) -> usize
    requires spelled { Spelled s.now limit names.now }
    requires sized { Sized s.now limit sizes.now }
    requires entity { Entity s.now m }
    requires m_bound { m < 17179869184 }
    ensures { result ≡ min (total + length (comma i ++ entity_text s.now m)) limit }
{
    let lead = 1 + comma_size(i);
    let named = added(names, list_at(s, m), lead, total, limit);
    let identified = added(names, list_at(s, m + 1), 1, named, limit);
    added(sizes, list_at(s, m + 2), 2, identified, limit)
}

// a run of entities with commas between
fn entities_size(
    s: &[u8],
    names: &[usize; 16384],
    sizes: &[usize; 16384],
    first: usize,
    items: usize,
    total: usize,
    limit: usize,
) -> usize
    requires spelled { Spelled s.now limit names.now }
    requires sized { Sized s.now limit sizes.now }
    requires entities { Entities s.now first items }
    requires bound { first + 3 * items < 17179869184 }
    ensures { result ≡ min (total + length (run_text (entity_text s.now) first 3 items)) limit }
{
    let mut sum = capped(total, 0, limit);
    for i in 0..items {
        // what is too long already needs no more items
        if limit <= sum {
            return limit;
        }
        sum = entity_size(s, names, sizes, i, first + 3 * i, sum, limit);
    }
    sum
}

// time and namespace: 8 and 14 bytes with them
fn head_size(s: &[u8], names: &[usize; 16384], p: usize, total: usize, limit: usize) -> usize
    requires spelled { Spelled s.now limit names.now }
    requires p_bound { p < points s.now }
    ensures { result ≡ min (total + length (head_text s.now p)) limit }
{
    let time = integer_size(halves(point_word(s, p, 0), point_word(s, p, 1)));
    let timed = capped(capped(total, 22, limit), time, limit);
    let first = point_word(s, p, 2) as usize;
    let items = point_word(s, p, 3) as usize;
    words_size(s, names, first, items, timed, limit)
}

// action and kind
fn names_size(s: &[u8], names: &[usize; 16384], p: usize, total: usize, limit: usize) -> usize
    requires spelled { Spelled s.now limit names.now }
    requires p_bound { p < points s.now }
    ensures { result ≡ min (total + length (names_text s.now p)) limit }
{
    let action = added(names, point_word(s, p, 4), 11, total, limit);
    added(names, point_word(s, p, 5), 8, action, limit)
}

// logged and context
fn records_size(s: &[u8], sizes: &[usize; 16384], p: usize, total: usize, limit: usize) -> usize
    requires sized { Sized s.now limit sizes.now }
    requires p_bound { p < points s.now }
    ensures { result ≡ min (total + length (records_text s.now p)) limit }
{
    let logged = added(sizes, point_word(s, p, 6), 10, total, limit);
    added(sizes, point_word(s, p, 7), 11, logged, limit)
}

// principal and resource
fn parties_size(s: &[u8], sizes: &[usize; 16384], p: usize, total: usize, limit: usize) -> usize
    requires sized { Sized s.now limit sizes.now }
    requires p_bound { p < points s.now }
    ensures { result ≡ min (total + length (parties_text s.now p)) limit }
{
    let principal = maybe_added(sizes, point_word(s, p, 8), 13, total, limit);
    maybe_added(sizes, point_word(s, p, 9), 12, principal, limit)
}

// entities and the line's end: 13 and 3 bytes with them
fn tail_size(
    s: &[u8],
    names: &[usize; 16384],
    sizes: &[usize; 16384],
    p: usize,
    total: usize,
    limit: usize,
) -> usize
    requires spelled { Spelled s.now limit names.now }
    requires sized { Sized s.now limit sizes.now }
    requires p_bound { p < points s.now }
    ensures { result ≡ min (total + length (entities_text s.now p) + 3) limit }
{
    let fixed = capped(total, 16, limit);
    let first = point_word(s, p, 10) as usize;
    let items = point_word(s, p, 11) as usize;
    entities_size(s, names, sizes, first, items, fixed, limit)
}

fn line_size(
    s: &[u8],
    names: &[usize; 16384],
    sizes: &[usize; 16384],
    p: usize,
    total: usize,
    limit: usize,
) -> usize
    requires spelled { Spelled s.now limit names.now }
    requires sized { Sized s.now limit sizes.now }
    requires p_bound { p < points s.now }
    ensures { result ≡ min (total + length (line_text s.now p)) limit }
{
    let head = head_size(s, names, p, total, limit);
    let named = names_size(s, names, p, head, limit);
    let recorded = records_size(s, sizes, p, named, limit);
    let parted = parties_size(s, sizes, p, recorded, limit);
    tail_size(s, names, sizes, p, parted, limit)
}

fn lines_size(s: &[u8], names: &[usize; 16384], sizes: &[usize; 16384], limit: usize) -> usize
    requires spelled { Spelled s.now limit names.now }
    requires sized { Sized s.now limit sizes.now }
    ensures { result ≡ min (length (lines_text s.now (points s.now))) limit }
{
    let n = point_count(s) as usize;
    let mut sum = 0;
    for p in 0..n {
        // what is too long already needs no more points
        if limit <= sum {
            return limit;
        }
        sum = line_size(s, names, sizes, p, sum, limit);
    }
    sum
}

// the tables stand in this function's frame alone
fn log_size(s: &[u8], limit: usize) -> usize
    requires { Checked s.now }
    ensures { result ≡ min (length (lines_text s.now (points s.now))) limit }
{
    let names = string_sizes(s, limit);
    let sizes = value_sizes(s, &names, limit);
    lines_size(s, &names, &sizes, limit)
}

// ---- the call

// of a case that passes: 25 before 14
fn export_checked(s: &[u8], out: &mut [u8]) -> Result<usize, ExportError>
    requires { Checked s.now }
    ensures { ExportsChecked s.now out.old out.new result }
{
    if !all_clear(s) {
        return Err(ExportError::Ambiguous);
    }
    let size = log_size(s, out.len() + 1);
    if out.len() < size {
        return Err(ExportError::Refused(Refusal::OutputTooShort));
    }
    put_lines(s, out, 0);
    Ok(size)
}

// a case's points as a log: a line a point, from the output's first byte on; on a refusal the output is as it was
pub fn export(s: &[u8], out: &mut [u8]) -> Result<usize, ExportError>
    ensures { Exports s.now out.old out.new result }
{
    match check(s) {
        Ok(_) => export_checked(s, out),
        Err(refusal) => Err(ExportError::Refused(refusal)),
    }
}
