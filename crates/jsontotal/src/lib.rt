// How many records a good line and a good log add to each table.

#![tactic(auto)]

pub mod fields;
pub mod lines;
