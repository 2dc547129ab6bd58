// The values of the nine kinds: which texts are in a kind's space, and the order of its values.
#![tactic(auto)]

pub mod calendar;
pub mod kinds;
pub mod numbers;
pub mod numerals;
pub mod spaces;
pub mod unicode;
pub mod versions;
