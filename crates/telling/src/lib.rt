// Writes what a call said into the cells that a caller lends, and gives the number to return.

#![tactic(auto)]

ghost use Rattle.std.specs.Prelude.{◌≡◌, [], ◌∷◌, ◌++◌, ◌≤◌, length, drop};
ghost use Rattle.meaning.specs.Calls.{number_of};
ghost use Rattle.calls.specs.Promises.{as_answer, as_carried, as_rows};
ghost use Rattle.jsontrace.specs.Import.{fault_number, import_number};
ghost use Rattle.jsontrace.specs.Export.{export_number};
ghost use Rattle.telling.specs.Seen.{yes_cell, answer_cell, sort_cell, count_cell, no_cell, carried_cell, filled_cell, import_cells, export_cell};
ghost use Rattle.telling.specs.Telling.{cells_of, refusing, Telling as TellingOf, written_number, written_cell};

use calls::{Answer, Refused, Said, Spent};
use carried::Carried;
use casecheck::Contents;
use jsontext::Fault;
use jsontrace::{ExportError, ImportError};
use meaning::Refusal;

// the number to return, and the four cells
#[derive(Clone, Copy)]
pub struct Telling {
    pub number: u64,
    pub answer: u64,
    pub steps: u64,
    pub most: usize,
    pub fourth: u64,
}

pub fn tell_contents(found: Contents, lent: &mut [u64]) -> u64
    requires { 5 ≤ length lent.old }
    ensures { (result ≡ 0) × (lent.new ≡ (found.vars ∷ found.strings ∷ found.values ∷ found.points ∷ found.nodes ∷ []) ++ drop 5 lent.old) }
{
    lent[0] = found.vars as u64;
    lent[1] = found.strings as u64;
    lent[2] = found.values as u64;
    lent[3] = found.points as u64;
    lent[4] = found.nodes as u64;
    0
}

fn fill(lent: &mut [u64], a: u64, b: u64, c: u64, d: u64)
    requires { 4 ≤ length lent.old }
    ensures { lent.new ≡ (a ∷ b ∷ c ∷ d ∷ []) ++ drop 4 lent.old }
{
    lent[0] = a;
    lent[1] = b;
    lent[2] = c;
    lent[3] = d;
}

pub fn tell(t: Telling, lent: &mut [u64]) -> u64
    requires { 4 ≤ length lent.old }
    ensures { (result ≡ t.number) × (lent.new ≡ cells_of t ++ drop 4 lent.old) }
{
    fill(lent, t.answer, t.steps, t.most as u64, t.fourth);
    t.number
}

fn refuse(refused: Refused) -> Telling
    ensures { result ≡ refusing (number_of refused.refusal) refused.spent.steps refused.spent.most }
{
    Telling {
        number: refusals::number(refused.refusal),
        answer: 0,
        steps: refused.spent.steps,
        most: refused.spent.most,
        fourth: 0,
    }
}

fn yes_cell(yes: bool) -> u64
    ensures { result ≡ yes_cell yes }
{
    if yes { 1 } else { 0 }
}

fn answered(answer: u64, spent: Spent, fourth: u64) -> Telling
    ensures { result ≡ record { number = 0; answer = answer; steps = spent.steps; most = spent.most; fourth = fourth } }
{
    Telling {
        number: 0,
        answer,
        steps: spent.steps,
        most: spent.most,
        fourth,
    }
}

fn of_given(answer: Answer, spent: Spent) -> Telling
    ensures { TellingOf answer_cell sort_cell (as_answer (Ok (answer, spent))) result }
{
    match answer {
        Answer::Verdict(yes) => answered(yes_cell(yes), spent, 0),
        Answer::Number(bits) => answered(bits, spent, 1),
    }
}

pub fn of_answer(said: Said<Answer>) -> Telling
    ensures { TellingOf answer_cell sort_cell (as_answer said) result }
{
    match said {
        Ok((answer, spent)) => of_given(answer, spent),
        Err(refused) => refuse(refused),
    }
}

pub fn of_rows(said: Said<usize>) -> Telling
    ensures { TellingOf count_cell no_cell (as_rows said) result }
{
    match said {
        Ok((count, spent)) => answered(count as u64, spent, 0),
        Err(refused) => refuse(refused),
    }
}

pub fn of_carried(said: Said<Carried>) -> Telling
    ensures { TellingOf carried_cell filled_cell (as_carried said) result }
{
    match said {
        Ok((carried, spent)) => {
            answered(yes_cell(carried.verdict), spent, carried.filled as u64)
        }
        Err(refused) => refuse(refused),
    }
}

pub fn tell_written(said: Result<usize, Refusal>, lent: &mut [u64]) -> u64
    requires { 1 ≤ length lent.old }
    ensures { (result ≡ written_number said) × (lent.new ≡ written_cell said ∷ drop 1 lent.old) }
{
    match said {
        Ok(size) => {
            lent[0] = size as u64;
            0
        }
        Err(refusal) => {
            lent[0] = 0;
            refusals::number(refusal)
        }
    }
}

// what is wrong with a JSON text, from 20 to 24; no From, since both Fault and u64 are of other crates
fn fault_number(fault: Fault) -> u64
    ensures { result ≡ fault_number fault }
{
    match fault {
        Fault::NotJson => 20,
        Fault::RepeatedName => 21,
        Fault::BadNumber => 22,
        Fault::BadField => 23,
        Fault::TooDeep => 24,
    }
}

fn tell_no_import(error: ImportError, lent: &mut [u64]) -> u64
    requires { 4 ≤ length lent.old }
    ensures { (result ≡ import_number (Err error)) × (lent.new ≡ import_cells (Err error) ++ drop 4 lent.old) }
{
    match error {
        ImportError::Faulty(bad) => {
            fill(lent, 0, 0, bad.at as u64, bad.first as u64);
            fault_number(bad.fault)
        }
        ImportError::Refused(refusal) => {
            fill(lent, 0, 0, 0, 0);
            refusals::number(refusal)
        }
    }
}

pub fn tell_imported(said: Result<(usize, usize), ImportError>, lent: &mut [u64]) -> u64
    requires { 4 ≤ length lent.old }
    ensures { (result ≡ import_number said) × (lent.new ≡ import_cells said ++ drop 4 lent.old) }
{
    match said {
        Ok((bytes, marks)) => {
            fill(lent, bytes as u64, marks as u64, 0, 0);
            0
        }
        Err(error) => tell_no_import(error, lent),
    }
}

// 25 for an object that would be read as one of Cedar's forms
fn export_number(error: ExportError) -> u64
    ensures { result ≡ export_number (Err error) }
{
    match error {
        ExportError::Ambiguous => 25,
        ExportError::Refused(refusal) => refusals::number(refusal),
    }
}

pub fn tell_exported(said: Result<usize, ExportError>, lent: &mut [u64]) -> u64
    requires { 1 ≤ length lent.old }
    ensures { (result ≡ export_number said) × (lent.new ≡ export_cell said ∷ drop 1 lent.old) }
{
    match said {
        Ok(bytes) => {
            lent[0] = bytes as u64;
            0
        }
        Err(error) => {
            lent[0] = 0;
            export_number(error)
        }
    }
}
