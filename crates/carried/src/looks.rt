// The nodes that look back over the log.
ghost use Rattle.std.specs.Prelude.{◌≡◌, Bool};
ghost use Rattle.meaning.specs.Carried.{looks_back};
ghost use Rattle.meaning.specs.Carried.{look_of as meant_look};
ghost use Rattle.carried.specs.Shows.{as_look, looking, window_in};

use super::Look;
use meaning::{Interval, Node};

pub fn look_of(node: Node) -> Option<Look>
    ensures { looking result ≡ meant_look node }
{
    match node {
        Node::Formerly(within, x) => Some(Look::Formerly(within, x)),
        Node::Previous(within, x) => Some(Look::Previous(within, x)),
        Node::Since(l, r, within) => Some(Look::Since(l, r, within)),
        _ => None,
    }
}

// the window that is looked back over
pub fn window_of(look: Look) -> Interval
    ensures { result ≡ window_in (as_look look) }
{
    match look {
        Look::Formerly(within, _) => within,
        Look::Previous(within, _) => within,
        Look::Since(_, _, within) => within,
    }
}

pub fn looks_back(node: Node) -> bool
    ensures { ◌≡◌ {A = Bool} result (looks_back node) }
{
    look_of(node).is_some()
}
