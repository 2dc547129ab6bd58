// The calls that give a dossier: check an event, and combine; and an event added to a dossier.
#![tactic(auto)]

pub mod add;
pub mod agreed;
pub mod check;
pub mod combine;
pub mod joined;
pub mod limits;
pub mod measures;
pub mod write;
