// What the definition of a JSON log and its reader both speak of.

#![tactic(auto)]

ghost use Rattle.std.specs.Prelude.{◌≡◌};
ghost use Rattle.jsontext.specs.Reading.{wrong};

// what is wrong with a text: refusals 20 to 24
#[derive(Clone, Copy)]
pub enum Fault {
    NotJson,
    RepeatedName,
    BadNumber,
    BadField,
    TooDeep,
}

// what an object is read as: its members, or one of Cedar's forms
#[derive(Clone, Copy)]
pub enum Form {
    Plain,
    Entity,
    Extension,
}

// where a look ahead stands: outside all strings, in one, or after a backslash in one
#[derive(Clone, Copy)]
pub enum Side {
    Outside,
    Inside,
    Escaped,
}

// what is wrong, its place, and for a repeated name the place of the first (else the same place)
#[derive(Clone, Copy)]
pub struct Bad {
    pub fault: Fault,
    pub at: usize,
    pub first: usize,
}

impl Bad {
    // wrong where one stands
    pub fn new(fault: Fault, at: usize) -> Bad
        ensures { result ≡ wrong fault at }
    {
        Bad {
            fault,
            at,
            first: at,
        }
    }
}
