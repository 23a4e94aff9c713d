// Equality of values and of cells, and the number by which cells are found, each equal to its definition.

#![tactic(auto)]

mod hashes;
mod values;

pub use hashes::{binding_hash, mix};
pub use values::{binding_eq, binding_of, dom_eq};

// two runs of n members, from p and from q on
#[derive(Clone, Copy)]
struct Runs {
    n: u32,
    p: u32,
    q: u32,
}

// the lowest values that two values lead to
#[derive(Clone, Copy)]
struct Ends {
    v: usize,
    w: usize,
}
