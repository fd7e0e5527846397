// Journals of changes: records of them written to a lent buffer, and why a replay stops.
#![tactic(auto)]

pub mod append;
pub mod kinds;
pub mod stops;
