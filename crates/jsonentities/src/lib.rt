// The entities of an event, sorted and written.

#![tactic(auto)]

pub mod entity;
pub mod keys;
pub mod sorting;
pub mod written;
