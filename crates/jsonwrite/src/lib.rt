// The import call over a JSON log: a good text's trace and its marks.

#![tactic(auto)]

pub mod import;
