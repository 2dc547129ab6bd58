// The hash text of an event, and its SHA-1 hash.
#![tactic(auto)]

pub mod calls;
pub mod gather;
pub mod objects;
pub mod text;
