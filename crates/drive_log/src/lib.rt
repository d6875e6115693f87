// What recovery reads of an area before it builds the index: the head, the scan of the log's slots, and versions that two
// entries share. The helpers take N and S as `usize`; their caller has tested both and the area's length (cause 1).
#![tactic(auto)]

use segment::{Digest, Version};

mod editions;
mod filter;
pub mod head;
mod hits;
pub mod lengths;
mod marks;
mod parts;
pub mod scan;
pub mod slots;
pub mod survey;
mod suspects;
mod table;
pub mod versions;

// The head: its slot and its digest.
#[derive(Clone, Copy)]
pub struct FoundHead {
    pub slot: usize,
    pub digest: Digest,
}

// What a walk of an undamaged log has passed: its highest version, 0 where it is empty, and whether the filter told all versions
// apart.
#[derive(Clone, Copy)]
pub struct Passed {
    pub highest: Version,
    pub apart: bool,
}
