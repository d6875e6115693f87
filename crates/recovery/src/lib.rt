// The calls that look at a store: format, recovery, and reads.
#![tactic(auto)]

use segment::{Digest, Edition, Version};

pub mod count;
pub mod format;
pub mod read;
pub mod recover;

// A key's object: the place of the area at which it stands, its version and kind, and the length of the whole entry.
#[derive(Clone, Copy)]
pub struct Object {
    pub place: usize,
    pub version: Version,
    pub kind: u8,
    pub length: usize,
}

// What recovery found in an area: the head with its edition, and the highest version in its log.
#[derive(Clone, Copy)]
pub struct Image {
    pub edition: Edition,
    pub slot: usize,
    pub digest: Digest,
    pub highest: Version,
}
