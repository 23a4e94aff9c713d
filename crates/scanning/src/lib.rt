// A scan over many points: a Predicate's terms resolved once, and the points passed over that cannot hold.

#![tactic(auto)]

use meaning::Meter;

mod passed;
mod plans;

pub use passed::skip_down;

// how far down a scan came: the points left, and the meter there
#[derive(Clone, Copy)]
pub struct Skipped {
    pub left: usize,
    pub meter: Meter,
}
