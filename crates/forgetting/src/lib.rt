// The start of a delete. Where its tombstone finds no room, the delete is a cleaning of the one slot with the live object (02,
// R-4).
#![tactic(auto)]

use segment::{Key, Version};

pub mod copy;
pub mod forget;
pub mod room;
pub mod start;

// A live object that is to go: the place where it stands, whether a tombstone is needed there, and the tombstone's key and
// version. `needed` is a flag beside these two, and no Option around them: they are known whether it is needed or not.
#[derive(Clone, Copy)]
pub struct Live {
    pub place: usize,
    pub needed: bool,
    pub key: Key,
    pub version: Version,
}
