// Unions of sets whose values stand one after the other in byte slices: counted, and written without a copy of any value but into the output.
#![tactic(auto)]

pub mod counted;
pub mod heads;
pub mod many;
pub mod pair;
