// Reads by scan (02, R-9): what the log holds of a key, with nothing lent but the area. The checks of the image are recovery's.
#![tactic(auto)]

use segment::Version;

pub mod newest;
pub mod read;

// What a walk has seen of a key: the highest version of its entries, 0 where it has met none, and the place in the area at which
// that entry stands. 0 and no Option around the two, so that one comparison at an entry tells both of none and of a lower one.
#[derive(Clone, Copy)]
pub struct Seen {
    pub version: Version,
    pub place: usize,
}
