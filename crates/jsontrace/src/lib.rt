// What importing and exporting a JSON log say. The definitions, their examples and laws are in specs/; there is no code yet.

#![tactic(auto)]

use jsontext::Bad;
use meaning::Refusal;

// why there is no trace: what is wrong with the text; or a refusal that is not about the text
#[derive(Clone, Copy)]
pub enum ImportError {
    Faulty(Bad),
    Refused(Refusal),
}

// why there is no log: an object that would be read as one of Cedar's forms; or a refusal
#[derive(Clone, Copy)]
pub enum ExportError {
    Ambiguous,
    Refused(Refusal),
}
