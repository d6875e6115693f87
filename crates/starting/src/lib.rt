// What the starts of a write, a delete and a cleaning share: their first tests, the number of stores, the digest of a new head
// and the answer.
#![tactic(auto)]

pub mod answer;
pub mod checks;
pub mod digest;
pub mod stores;
