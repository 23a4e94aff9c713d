// What an event's line adds to the tables: contracts of the functions that write it.

#![tactic(auto)]

// where the value of each field of a line begins; 0 where there is no principal or resource
#[derive(Clone, Copy)]
pub struct Fields {
    pub time: usize,
    pub namespace: usize,
    pub action: usize,
    pub kind: usize,
    pub logged: usize,
    pub context: usize,
    pub principal: usize,
    pub resource: usize,
    pub entities: usize,
}
