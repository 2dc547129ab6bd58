// The calls for programs in C and Rust: a slice is a pointer and a length, a reply is a number.
#![tactic(auto)]

pub mod calls;
pub mod pack;
