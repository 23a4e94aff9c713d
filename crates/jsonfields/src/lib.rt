// Where the fields of a good line stand.

#![tactic(auto)]

pub mod ends;
pub mod places;
