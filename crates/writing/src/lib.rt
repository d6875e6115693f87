// The start of a write, and what that of a delete shares with it: what they check, and how an entry is laid out in the work buffer.
#![tactic(auto)]

use record::Pending;
use segment::Version;

pub mod causes;
pub mod find;
pub mod full;
pub mod lay;
pub mod start;

// What the index says of a key: its latest entry is an object of that version or a tombstone, it has none, or a byte was met that the rules of
// the log forbid.
#[derive(Clone, Copy)]
pub enum Presence {
    Object(Version),
    Tombstone,
    Nothing,
    Forbidden,
}

// What a start lays down besides the bytes in the work buffer: the pending operation and the number of its stores.
#[derive(Clone, Copy)]
pub struct Laying {
    pub pending: Pending,
    pub left: u32,
}
