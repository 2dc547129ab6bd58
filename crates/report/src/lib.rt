// What the merge program prints.
#![tactic(auto)]

pub mod calls;
pub mod lines;
