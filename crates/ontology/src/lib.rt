// The ontology table: its bytes are read once, checked against every rule, and the type that is asked for is kept as an index of places.
#![tactic(auto)]

pub mod fields;
pub mod kinds;
pub mod names;
pub mod properties;
pub mod tables;
pub mod types;
