// Question 1: the least sizes of outputs, as specs/Capacities has them.

// A dossier, a merged event, and each scratch buffer of a batch.
pub const DOSSIER_CAPACITY: usize = 32768;

pub const HASH_TEXT_CAPACITY: usize = 8192;

pub const HASH_CAPACITY: usize = 20;

pub const REPORT_CAPACITY: usize = 65536;
