// What the calls reply, the least sizes of their outputs, and the limits that they take.
#![tactic(auto)]

pub mod capacities;
pub mod limits;
pub mod reply;
