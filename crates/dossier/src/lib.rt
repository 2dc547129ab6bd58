// A dossier, read where it stands into an index of positions, and the questions asked of it.
#![tactic(auto)]

pub mod dossiers;
pub mod head;
pub mod questions;
pub mod shape;
pub mod snapshots;
