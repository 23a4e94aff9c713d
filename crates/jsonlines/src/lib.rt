// Pass one over a log: the first fault of a text.

#![tactic(auto)]

pub mod entities;
pub mod events;
pub mod fields;
