// A packed event, read where it stands into an index of positions, and the questions asked of it.
#![tactic(auto)]

pub mod agree;
pub mod ask;
pub mod bits;
pub mod head;
pub mod lookup;
pub mod read;
pub mod sets;
pub mod shape;
pub mod spaces;
pub mod write;
