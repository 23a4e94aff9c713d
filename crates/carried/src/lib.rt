// Which points carried the verdict of a Formerly, a Previous or a Since: each question of its scan is a walk of its own.

#![tactic(auto)]

mod answers;
mod list;
mod looks;
mod scans;
mod turns;

pub use answers::answer;
pub use looks::looks_back;
use meaning::{Interval, NodeNo};

// a node that looks back over the log
#[derive(Clone, Copy)]
pub enum Look {
    Formerly(Interval, NodeNo),
    Previous(Interval, NodeNo),
    Since(NodeNo, NodeNo, Interval),
}

// what a point in the window is to a scan
#[derive(Clone, Copy)]
pub enum Turn {
    Passes,
    Carries,
    Fails(usize),
}

// where a scan ended, if a point carries, and how many cells its failed anchors take, two each
#[derive(Clone, Copy)]
pub struct Scan {
    pub end: Option<usize>,
    pub failed: usize,
}

// the verdict, and how many cells of the list are filled
#[derive(Clone, Copy)]
pub struct Carried {
    pub verdict: bool,
    pub filled: usize,
}
