// What the parts of an event add to the tables: contracts of the functions that write them, and their laws.

#![tactic(auto)]

// the words of an event's values
#[derive(Clone, Copy)]
pub struct EventValues {
    pub logged: usize,
    pub context: usize,
    pub principal: usize,
    pub resource: usize,
}

// what an event wrote before its point: how many strings its namespace has, its values, and which list words and how many name its entities
#[derive(Clone, Copy)]
pub struct Body {
    pub spaces: usize,
    pub values: EventValues,
    pub list: usize,
    pub count: usize,
}
