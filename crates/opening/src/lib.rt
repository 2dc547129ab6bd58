// A dossier opened: the conflict that it names, an overfull place, or the merged event.
#![tactic(auto)]

pub mod calls;
pub mod cells;
pub mod conflict;
pub mod merge;
pub mod strategies;
pub mod write;
