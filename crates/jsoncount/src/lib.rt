// How many records a good text adds to each table, and how many bytes its strings have.

#![tactic(auto)]

pub mod entities;
pub mod forms;
pub mod scalars;
pub mod tallies;
pub mod texts;
pub mod values;
