// Meters and shapes, made in one place: a number more beside steps and rows is one field here.
ghost use Rattle.std.specs.Prelude.{◌≡◌, ◌<◌};
ghost use Rattle.meaning.specs.Walk.{started};
ghost use Rattle.rows.specs.Meters.{stepped, holding, raised};
ghost use Rattle.rows.specs.Stack.{shape_of};

use super::Shape;
use meaning::{Limits, Meter};

// nothing spent, nothing held
pub fn started() -> Meter
    ensures { result ≡ started }
{
    Meter {
        steps: 0,
        held: 0,
        most: 0,
    }
}

// a step more, where steps are left
pub fn stepped(m: Meter, limit: u64) -> Meter
    requires { m.steps < limit }
    ensures { result ≡ stepped m }
{
    Meter {
        steps: m.steps + 1,
        ..m
    }
}

// so many rows held, of those that were held before
pub fn holding(m: Meter, held: usize) -> Meter
    ensures { result ≡ holding m held }
{
    Meter { held, ..m }
}

// so many rows held, perhaps more than ever before
pub fn raised(m: Meter, held: usize) -> Meter
    ensures { result ≡ raised m held }
{
    Meter {
        held,
        most: m.most.max(held),
        ..m
    }
}

// rows of so many variables, in the room of a call
pub fn shape_of(vars: usize, limits: Limits) -> Shape
    ensures { result ≡ shape_of vars limits }
{
    Shape {
        vars,
        room: limits.room,
    }
}
