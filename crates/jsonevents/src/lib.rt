// An event's line written as a point, and a whole log.

#![tactic(auto)]

pub mod events;
pub mod log;
pub mod names;
pub mod points;
pub mod values;
