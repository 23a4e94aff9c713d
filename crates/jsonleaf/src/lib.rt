// Values that hold no other, strings and forms written; an array's items counted, an object's names in order.

#![tactic(auto)]

pub mod flats;
pub mod parts;
