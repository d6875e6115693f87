// The range-and-length test of 01, "Refused calls": whether a record is one that a call may go by, as far as can be told
// without a look at the log.
ghost use Rattle.std.specs.Prelude.{◌≤◌, ◌≡◌, leb};
ghost use Rattle.record.specs.Range.{between, slots_good, size_good, cells_good, map_good, left_good, next_good, counts_good, most_present, in_range, fits_lent, lengths_own};
ghost use Rattle.record.specs.RangeLaws.{limits_good, counters_good, numbers_good, front_good};
ghost use Rattle.segment.specs.Choice.{both};

use crate::{Pending, Record};
use segment::layout::{digest_size, version_limit};
use segment::{Edition, Version};

// Whether x is from low to high.
pub fn between(low: usize, high: usize, x: usize) -> bool
    ensures { result ≡ between low high x }
{
    low <= x && x <= high
}

// Whether there can be so many slots.
pub fn slots_good(slots: u32) -> bool
    ensures { result ≡ slots_good slots }
{
    between(4, 32, slots as usize)
}

// Whether a segment can be so long.
pub fn size_good(size: u32) -> bool
    ensures { result ≡ size_good size }
{
    between(256, 2048, size as usize)
}

// Whether the index can have so many cells.
pub fn cells_good(cells: usize) -> bool
    ensures { result ≡ cells_good cells }
{
    between(16, 4096, cells)
}

// Whether the map names only slots below `slots`, the head among them, and leaves one free.
pub fn map_good(slots: u32, head: u32, map: u32) -> bool
    requires { (1 ≤ slots) × (slots ≤ 32) }
    ensures { result ≡ map_good slots head map }
{
    if !slot_map::leaves_free(slots, map) {
        return false;
    }
    if slots <= head {
        return false;
    }
    slot_map::has_slot(map, head)
}

// Whether a pending operation has as many stores left as one can have.
fn left_good(size: u32, pending: Pending) -> bool
    requires { size ≤ 2048 }
    ensures { result ≡ left_good size pending }
{
    if let Pending::Idle = pending {
        return true;
    }
    between(1, size as usize + 1, crate::stores_left(pending) as usize)
}

// Whether N, S and M are within their limits.
fn limits_good(rec: Record) -> bool
    ensures { result ≡ limits_good rec }
{
    if !slots_good(rec.slots) {
        return false;
    }
    size_good(rec.size) && cells_good(rec.cells as usize)
}

// Whether a next version is one.
fn next_good(edition: Edition, next: Version) -> bool
    ensures { result ≡ next_good edition next.0 }
{
    1 <= next.0 && next.0 <= version_limit(edition)
}

// Whether the end of the head's entries, the digest number, the next version and the number of keys can be so.
fn counters_good(rec: Record) -> bool
    requires { 1 ≤ rec.cells }
    ensures { result ≡ counters_good rec.edition rec }
{
    let edition = rec.edition;
    let number = rec.digest;
    let next = rec.next;
    if !between(digest_size(edition), rec.size as usize, rec.end as usize) {
        return false;
    }
    if number.0 == 0 {
        return false;
    }
    next_good(edition, next) && rec.keys <= rec.cells - 1
}

// Whether a number is not above the limit, where those before it were not.
fn still_good(good: bool, count: u32, limit: u32) -> bool
    ensures { result ≡ both good (leb count limit) }
{
    good && count <= limit
}

// Whether none of the numbers of present bytes is above the limit. Every one is looked at, so that the compiler may take several at
// once.
pub fn counts_good(counts: &[u32], limit: u32) -> bool
    ensures { result ≡ counts_good limit counts.now }
{
    let mut good = true;
    for count in counts {
        good = still_good(good, *count, limit);
    }
    good
}

// Bytes of a digest of the first edition, the shortest.
const SHORTEST_DIGEST: u32 = 13;

// Whether no slot has more present bytes than a segment of any edition has behind its digest.
fn bytes_good(rec: Record) -> bool
    requires { 256 ≤ rec.size }
    ensures { result ≡ counts_good (most_present rec.size) rec.counts }
{
    let counts = rec.counts;
    counts_good(&counts, rec.size - SHORTEST_DIGEST)
}

// Whether every number of the record is in range, those of present bytes and of the pending operation left aside.
pub fn numbers_good(rec: Record) -> bool
    ensures { result ≡ numbers_good rec.edition rec }
{
    if !limits_good(rec) {
        return false;
    }
    map_good(rec.slots, rec.head, rec.map) && counters_good(rec)
}

// Whether every number of the record is in range, those of present bytes left aside.
pub fn front_good(rec: Record) -> bool
    ensures { result ≡ front_good rec.edition rec }
{
    let pending = rec.pending;
    numbers_good(rec) && left_good(rec.size, pending)
}

// Whether every number of the record is in range.
pub fn in_range(rec: Record) -> bool
    ensures { result ≡ in_range rec.edition rec }
{
    front_good(rec) && bytes_good(rec)
}

// Whether the area is N × S bytes long and the index M cells.
pub fn lengths_own(rec: Record, area: usize, index: usize) -> bool
    requires { (rec.slots ≤ 32) × (rec.size ≤ 2048) }
    ensures { result ≡ lengths_own rec area index }
{
    area == rec.slots as usize * rec.size as usize && index == rec.cells as usize
}

// Whether the record is in range, and the area and the index that are lent are as long as it says.
pub fn fits_lent(rec: Record, area: usize, index: usize) -> bool
    ensures { result ≡ fits_lent rec.edition rec area index }
{
    in_range(rec) && lengths_own(rec, area, index)
}
