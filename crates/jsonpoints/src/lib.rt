// A case's points as lines of JSON, written into a slice.

#![tactic(auto)]

ghost use Rattle.std.specs.Prelude.{◌++◌, ◌+◌, ◌*◌, ◌<◌, ◌≤◌, ◌≡◌, length};
ghost use Rattle.meaning.specs.Case.{points, text, point_word};
ghost use Rattle.meaning.specs.Check.{Checked};
ghost use Rattle.jsontrace.specs.Text.{quoted};
ghost use Rattle.jsonput.specs.Put.{Put};
ghost use Rattle.jsonput.specs.Runs.{comma, run_text};
ghost use Rattle.jsonput.specs.Values.{value_text};
ghost use Rattle.jsonpoints.specs.Lines.{word_text, type_text, identity_text, object_text, entity_text, maybe_text, time_text, space_text, head_text, names_text, first_text, records_text, parties_text, entities_text, rest_text, second_text, fields_text, line_text, lines_text};

use jsonput::{put_after, put_byte, put_comma, put_integer, put_piece, put_string, put_value};
use meaning::{StrNo, ValNo};
use stringcheck::point_count;
use tables::{halves, list_at, point_word};

// ---- fields: a piece, then word j of point p

fn put_string_field(s: &[u8], piece: &[u8], p: usize, j: usize, out: &mut [u8], at: usize) -> usize
    requires checked { Checked s.now }
    requires j_in_bounds { at + length (piece.now ++ quoted (text s.now (point_word s.now p j))) ≤ length out.old }
    ensures { Put out.old out.new at (piece.now ++ quoted (text s.now (point_word s.now p j))) result }
{
    put_after(s, piece, StrNo(point_word(s, p, j)), out, at)
}

// a piece, then a value
fn put_value_after(s: &[u8], piece: &[u8], v: ValNo, out: &mut [u8], at: usize) -> usize
    requires checked { Checked s.now }
    requires v_in_bounds { at + length (piece.now ++ value_text s.now v.0) ≤ length out.old }
    ensures { Put out.old out.new at (piece.now ++ value_text s.now v.0) result }
{
    let next = put_piece(out, at, piece);
    put_value(s, v, out, next)
}

fn put_value_field(s: &[u8], piece: &[u8], p: usize, j: usize, out: &mut [u8], at: usize) -> usize
    requires checked { Checked s.now }
    requires j_in_bounds { at + length (piece.now ++ value_text s.now (point_word s.now p j)) ≤ length out.old }
    ensures { Put out.old out.new at (piece.now ++ value_text s.now (point_word s.now p j)) result }
{
    put_value_after(s, piece, ValNo(point_word(s, p, j)), out, at)
}

// nothing where there is none
fn put_maybe_field(s: &[u8], piece: &[u8], p: usize, j: usize, out: &mut [u8], at: usize) -> usize
    requires checked { Checked s.now }
    requires j_in_bounds { at + length (maybe_text s.now piece.now (point_word s.now p j)) ≤ length out.old }
    ensures { Put out.old out.new at (maybe_text s.now piece.now (point_word s.now p j)) result }
{
    // u32::MAX stands for none
    if point_word(s, p, j) == u32::MAX {
        at
    } else {
        put_value_field(s, piece, p, j, out, at)
    }
}

// ---- runs of the lists

// item i of a namespace, at place m of the lists
fn put_word(s: &[u8], i: u32, m: usize, out: &mut [u8], at: usize) -> usize
    requires checked { Checked s.now }
    requires m_in_bounds { at + length (comma i ++ word_text s.now m) ≤ length out.old }
    ensures { Put out.old out.new at (comma i ++ word_text s.now m) result }
{
    let next = put_comma(out, at, i);
    put_string(s, StrNo(list_at(s, m)), out, next)
}

fn put_words(s: &[u8], first: u32, items: u32, out: &mut [u8], at: usize) -> usize
    requires checked { Checked s.now }
    requires in_bounds { at + length (run_text (word_text s.now) first 1 items) ≤ length out.old }
    ensures { Put out.old out.new at (run_text (word_text s.now) first 1 items) result }
{
    let mut next = at;
    for i in 0..items {
        next = put_word(s, i, first as usize + i as usize, out, next);
    }
    next
}

// ---- an entity at place m of the lists: its comma, type, id and object

fn put_type(s: &[u8], i: u32, m: usize, out: &mut [u8], at: usize) -> usize
    requires checked { Checked s.now }
    requires m_in_bounds { at + length (comma i ++ type_text s.now m) ≤ length out.old }
    ensures { Put out.old out.new at (comma i ++ type_text s.now m) result }
{
    let next = put_comma(out, at, i);
    put_after(s, b"[", StrNo(list_at(s, m)), out, next)
}

fn put_identity(s: &[u8], i: u32, m: usize, out: &mut [u8], at: usize) -> usize
    requires checked { Checked s.now }
    requires m_bound { m < 4294967296 }
    requires m_in_bounds { at + length (identity_text s.now i m) ≤ length out.old }
    ensures { Put out.old out.new at (identity_text s.now i m) result }
{
    let next = put_type(s, i, m, out, at);
    put_after(s, b",", StrNo(list_at(s, m + 1)), out, next)
}

fn put_attributes(s: &[u8], m: usize, out: &mut [u8], at: usize) -> usize
    requires checked { Checked s.now }
    requires m_bound { m < 4294967296 }
    requires m_in_bounds { at + length (object_text s.now m) ≤ length out.old }
    ensures { Put out.old out.new at (object_text s.now m) result }
{
    let next = put_value_after(s, b",", ValNo(list_at(s, m + 2)), out, at);
    put_byte(out, next, b']')
}

fn put_entity(s: &[u8], i: u32, m: usize, out: &mut [u8], at: usize) -> usize
    requires checked { Checked s.now }
    requires m_bound { m < 4294967296 }
    requires m_in_bounds { at + length (comma i ++ entity_text s.now m) ≤ length out.old }
    ensures { Put out.old out.new at (comma i ++ entity_text s.now m) result }
{
    let next = put_identity(s, i, m, out, at);
    put_attributes(s, m, out, next)
}

fn put_entities(s: &[u8], first: u32, items: u32, out: &mut [u8], at: usize) -> usize
    requires checked { Checked s.now }
    requires bound { first + 3 * items < 4294967296 }
    requires in_bounds { at + length (run_text (entity_text s.now) first 3 items) ≤ length out.old }
    ensures { Put out.old out.new at (run_text (entity_text s.now) first 3 items) result }
{
    let mut next = at;
    for i in 0..items {
        next = put_entity(s, i, first as usize + 3 * i as usize, out, next);
    }
    next
}

// ---- a line, two parts at a time

fn put_time(s: &[u8], p: usize, out: &mut [u8], at: usize) -> usize
    requires checked { Checked s.now }
    requires p_in_bounds { at + length (time_text s.now p) ≤ length out.old }
    ensures { Put out.old out.new at (time_text s.now p) result }
{
    let next = put_piece(out, at, b"{\"time\":");
    put_integer(out, next, halves(point_word(s, p, 0), point_word(s, p, 1)))
}

fn put_space(s: &[u8], p: usize, out: &mut [u8], at: usize) -> usize
    requires checked { Checked s.now }
    requires p_in_bounds { at + length (space_text s.now p) ≤ length out.old }
    ensures { Put out.old out.new at (space_text s.now p) result }
{
    let next = put_piece(out, at, b",\"namespace\":[");
    put_words(s, point_word(s, p, 2), point_word(s, p, 3), out, next)
}

fn put_head(s: &[u8], p: usize, out: &mut [u8], at: usize) -> usize
    requires checked { Checked s.now }
    requires p_in_bounds { at + length (head_text s.now p) ≤ length out.old }
    ensures { Put out.old out.new at (head_text s.now p) result }
{
    let next = put_time(s, p, out, at);
    put_space(s, p, out, next)
}

fn put_names(s: &[u8], p: usize, out: &mut [u8], at: usize) -> usize
    requires checked { Checked s.now }
    requires p_in_bounds { at + length (names_text s.now p) ≤ length out.old }
    ensures { Put out.old out.new at (names_text s.now p) result }
{
    let next = put_string_field(s, b"],\"action\":", p, 4, out, at);
    put_string_field(s, b",\"kind\":", p, 5, out, next)
}

fn put_first(s: &[u8], p: usize, out: &mut [u8], at: usize) -> usize
    requires checked { Checked s.now }
    requires p_in_bounds { at + length (first_text s.now p) ≤ length out.old }
    ensures { Put out.old out.new at (first_text s.now p) result }
{
    let next = put_head(s, p, out, at);
    put_names(s, p, out, next)
}

fn put_records(s: &[u8], p: usize, out: &mut [u8], at: usize) -> usize
    requires checked { Checked s.now }
    requires p_in_bounds { at + length (records_text s.now p) ≤ length out.old }
    ensures { Put out.old out.new at (records_text s.now p) result }
{
    let next = put_value_field(s, b",\"logged\":", p, 6, out, at);
    put_value_field(s, b",\"context\":", p, 7, out, next)
}

fn put_parties(s: &[u8], p: usize, out: &mut [u8], at: usize) -> usize
    requires checked { Checked s.now }
    requires p_in_bounds { at + length (parties_text s.now p) ≤ length out.old }
    ensures { Put out.old out.new at (parties_text s.now p) result }
{
    let next = put_maybe_field(s, b",\"principal\":", p, 8, out, at);
    put_maybe_field(s, b",\"resource\":", p, 9, out, next)
}

fn put_entity_run(s: &[u8], p: usize, out: &mut [u8], at: usize) -> usize
    requires checked { Checked s.now }
    requires p_bound { p < points s.now }
    requires p_in_bounds { at + length (entities_text s.now p) ≤ length out.old }
    ensures { Put out.old out.new at (entities_text s.now p) result }
{
    let next = put_piece(out, at, b",\"entities\":[");
    put_entities(s, point_word(s, p, 10), point_word(s, p, 11), out, next)
}

fn put_rest(s: &[u8], p: usize, out: &mut [u8], at: usize) -> usize
    requires checked { Checked s.now }
    requires p_bound { p < points s.now }
    requires p_in_bounds { at + length (rest_text s.now p) ≤ length out.old }
    ensures { Put out.old out.new at (rest_text s.now p) result }
{
    let next = put_parties(s, p, out, at);
    put_entity_run(s, p, out, next)
}

fn put_second(s: &[u8], p: usize, out: &mut [u8], at: usize) -> usize
    requires checked { Checked s.now }
    requires p_bound { p < points s.now }
    requires p_in_bounds { at + length (second_text s.now p) ≤ length out.old }
    ensures { Put out.old out.new at (second_text s.now p) result }
{
    let next = put_records(s, p, out, at);
    put_rest(s, p, out, next)
}

fn put_fields(s: &[u8], p: usize, out: &mut [u8], at: usize) -> usize
    requires checked { Checked s.now }
    requires p_bound { p < points s.now }
    requires p_in_bounds { at + length (fields_text s.now p) ≤ length out.old }
    ensures { Put out.old out.new at (fields_text s.now p) result }
{
    let next = put_first(s, p, out, at);
    put_second(s, p, out, next)
}

fn put_line(s: &[u8], p: usize, out: &mut [u8], at: usize) -> usize
    requires checked { Checked s.now }
    requires p_bound { p < points s.now }
    requires p_in_bounds { at + length (line_text s.now p) ≤ length out.old }
    ensures { Put out.old out.new at (line_text s.now p) result }
{
    let next = put_fields(s, p, out, at);
    put_piece(out, next, b"]}\n")
}

// all points, a line each
pub fn put_lines(s: &[u8], out: &mut [u8], at: usize) -> usize
    requires checked { Checked s.now }
    requires s_in_bounds { at + length (lines_text s.now (points s.now)) ≤ length out.old }
    ensures { Put out.old out.new at (lines_text s.now (points s.now)) result }
{
    let n = point_count(s) as usize;
    let mut next = at;
    for p in 0..n {
        next = put_line(s, p, out, next);
    }
    next
}
