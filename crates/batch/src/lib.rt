// The call batch.
#![tactic(auto)]

pub mod asked;
pub mod calls;
pub mod frame;
