// What paths reach in logged fields, context and scope, and which event a point has: what the evaluator asks of a checked case, each equal to its definition.

#![tactic(auto)]

mod paths;

pub use paths::{context_at, field_at, path_descend, same_event, scope_at};

// what is behind a name in a text: the end, a dot and the byte after it, or something else; three ways, so no Option
#[derive(Clone, Copy)]
enum After {
    End,
    Dot(usize),
    Other,
}

// a run of members: the first one's number, and the one after the last's
#[derive(Clone, Copy)]
struct Span {
    first: usize,
    end: usize,
}
