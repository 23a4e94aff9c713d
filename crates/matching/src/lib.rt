// What the evaluators do besides control: leaf terms, the arguments of a Predicate matched at a point, Tp, the point before, two sides compared or combined, shared arithmetic. Each equals its definition.

#![tactic(auto)]

use meaning::Binding;

mod once;
mod points;
mod predicates;
mod sides;

pub use once::{calculated, nests};
pub use points::previous_point;
pub use predicates::{match_args, tp_row};
pub use sides::{arithmetic, compare, fixed_of, is_int, leaf_of, resolve_leaf, unbound_variable};

// what a field asks of the row: it is as it was, or a variable is newly bound; or the field does not fit
#[derive(Clone, Copy)]
pub enum Fits {
    No,
    Yes,
    Binds(u32, Binding),
}
