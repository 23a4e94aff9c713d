// The check of a case file: the lowest refusal of 1 to 6, or what later calls need of its contents.

#![tactic(auto)]

ghost use Rattle.std.specs.Prelude.{◌≡◌, true};
ghost use Rattle.meaning.specs.Check.{bodies};
ghost use Rattle.casecheck.specs.Answer.{as_checking, contents_of};

use listruns::{list_tops, path_blocks};
use meaning::Refusal;
use nodecheck::check_nodes;
use pointcheck::check_points;
use stringcheck::{
    check_bodies, check_mosts, check_strings, free_strings, node_count, point_count, string_count,
    value_count, var_count,
};
use valuecheck::check_values;

// V, and how many records there are of each kind that a call may name
#[derive(Clone, Copy)]
pub struct Contents {
    pub vars: u32,
    pub strings: u32,
    pub values: u32,
    pub points: u32,
    pub nodes: u32,
}

fn contents_of(s: &[u8]) -> Contents
    requires { bodies s.now ≡ true }
    ensures { result ≡ contents_of s.now }
{
    Contents {
        vars: var_count(s),
        strings: string_count(s),
        values: value_count(s),
        points: point_count(s),
        nodes: node_count(s),
    }
}

pub fn check(file: &[u8]) -> Result<Contents, Refusal>
    ensures { result ≡ as_checking file.now }
{
    if !check_bodies(file) {
        return Err(Refusal::BadContents);
    }
    if !check_mosts(file) {
        return Err(Refusal::TooLarge);
    }
    if !check_strings(file) {
        return Err(Refusal::BadStrings);
    }
    if !check_values(file) {
        return Err(Refusal::BadValues);
    }
    let tops = list_tops(file);
    if !check_points(file, &tops) {
        return Err(Refusal::BadPoints);
    }
    let undotted = free_strings(file, 46);
    let paths = path_blocks(file, &undotted);
    if !check_nodes(file, &tops, &undotted, &paths) {
        return Err(Refusal::BadNodes);
    }
    Ok(contents_of(file))
}
