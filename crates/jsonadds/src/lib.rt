// What parts of a line that read well add to the tables: contracts of the functions that write them, and their laws.

#![tactic(auto)]

// how many parts, and where they end
#[derive(Clone, Copy)]
pub struct Many {
    pub count: usize,
    pub end: usize,
}

// a value's record
#[derive(Clone, Copy)]
pub struct Flat {
    pub kind: u32,
    pub x: u32,
    pub y: u32,
}
