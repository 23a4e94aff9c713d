// Signed 64-bit numbers, units and windows, and decimals: each function equal to its definition.

#![tactic(auto)]

mod decimals;
mod integers;

pub use decimals::{cedar_decimal_value, decimal_eq};
pub use integers::{calculate, ordered, seconds, window};
