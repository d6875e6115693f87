// The store: its calls, and the value of a read. This is what a user looks at; the promise of each call is its contract,
// a relation of the crate model that holds for every input.
#![tactic(auto)]

// Makes an area of N slots of S bytes a fresh store of edition 1 or 2. Outside the promise about cuts. Refused with 1, it changes
// nothing.
pub use recovery::format::format;

// Gives the record of the store in an area, whatever the order in which the slots are read, and builds the index. Refused with
// 1, 2, 15, 16, 17, 24, 25, 28, 18, 19 or 20; the index stays, but at 20 it is all 0. Here and in the reads by scan 28 is a log slot of
// edition 2 under a head of edition 1 (02, R-13).
pub use recovery::recover::recover;

// The version and kind of a key within the caller's tables, by its highest version in the log. Refused with 4, 22 or 8. Allowed
// during an operation.
pub use recovery::read::read;

// The value of a key, as a part of the area; the empty part at its start where read refuses.
pub use recovery::read::read_value;

// The same read and the same value without record and index: the log is scanned, with N and S alone (02, R-9). Refused with 1, 16, 17,
// 24, 25, 28, 18, 19, 22 or 8. Allowed at any moment, also before the first recovery.
pub use scanning::read::{scan_read, scan_read_value};

// Puts an image of one edition into the other, from an area into a second buffer of the same length: the same log and the same digests,
// and every other byte 0 (02, R-12). Like format outside the promise about cuts. Refused with 1, 16, 17, 24, 25, 28, 18, 19, 29 or
// 30, it changes nothing; here 28 is any log with slots of both editions.
pub use converting::convert::convert;

// Starts a write: checks, fills the work buffer, and answers the number of stores to come. Nothing is stored in the area.
// Refused with 4, 22, 3, 5, 7, 9, 11, 12 or 10, it changes nothing.
pub use writing::start::write;

// Starts a write over the version that the caller expects the key to have, 0 where it expects the key to be absent. Refused also
// with 21, behind 7, where the key has another version.
pub use writing::start::write_expecting;

// Starts a delete, likewise. Where its tombstone finds no room, the slot with the live object is cleaned. Refused with 4, 22, 3,
// 5, 8, 9, 12 or 10; 12 where what that slot keeps, in the new head's edition, does not fit (02, R-13).
pub use forgetting::start::delete;

// Starts a cleaning of a slot map of victims, likewise. Refused with 4, 3, 5, 13, 14 or 10.
pub use cleaning::clean::clean;

// Makes the next store of the pending operation, one byte, and answers the stores left; the last one makes the operation count,
// tells its version, and brings record and index up to date. Refused with 4, 3 or 6, it changes nothing, but for one case that
// no genuine store meets: the last step may find behind its store that the new entry cannot be read or that the index is full.
pub use stepping::step;

// Tells place and byte of the store that the next step will make, for a medium that is no memory. Only reads. Refused with 4, 3 or
// 6; of the lent lengths 4 looks at the area's alone.
pub use telling::tell::tell;

// Switches a live store to the second edition (02, R-13): from then on every new head is of that edition, and what is kept is rewritten
// in it. Changes the record alone, and not even that where the store is switched or its head is of edition 2. Refused with 4 or 5. A cut
// forgets the switch unless the head is of edition 2 by then: behind recovery the caller switches again.
pub use switching::switch;

// Tells the slot of the log with the fewest present bytes, the lowest where several have as few, from the record alone. Allowed during an
// operation. Refused with 4.
pub use fullness::fewest_present;

// Names the two slots of the log, the lower one first, that one new head can take over by a cleaning of exactly these two: the
// lowest such pair. Refused with 4, 5 or, where there is none, 23.
pub use joining::join::join;
