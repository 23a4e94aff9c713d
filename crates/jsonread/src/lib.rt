// The reader of a JSON log: each function stands on its line where the definition stands.

#![tactic(auto)]

pub mod begins;
pub mod bytes;
pub mod forms;
pub mod integers;
pub mod names;
pub mod strings;
