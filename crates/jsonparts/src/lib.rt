// Values that hold no other, and lists of strings.

#![tactic(auto)]

pub mod scalars;
pub mod texts;
