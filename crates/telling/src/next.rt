// The place of the next store, and whence its byte comes (01, "Operations, store by store"). Neither area nor work buffer is looked at:
// their lengths are enough.
ghost use Rattle.std.specs.Prelude.{◌+◌, ◌*◌, ◌≤◌, ◌<◌, ◌≡◌};
ghost use Rattle.starting.specs.Stores.{commit_stores};
ghost use Rattle.telling.specs.Next.{fits_slot, head_target};
ghost use Rattle.telling.specs.Places.{commit_place, slot_place};

use crate::{NextPlace, Target};
use starting::stores::commit_stores;

// The store that comes after `done` others, where the first `count` bytes of the work buffer come to an offset of the slot that
// begins at `base`.
fn commit_place(
    base: usize,
    size: usize,
    offset: usize,
    count: usize,
    done: usize,
) -> Option<NextPlace<usize>>
    requires { (size < 4294967296) × (base + size < 18446744073709551616) × (offset + count ≤ size) × (0 < count) × (done < commit_stores size offset count) }
    ensures { result ≡ commit_place base size offset count done }
{
    let from = done + 1;
    if from == commit_stores(size, offset, count) {
        return Some(NextPlace {
            place: base + offset,
            from: 0,
            copied: true,
        });
    }
    if from < count {
        return Some(NextPlace {
            place: base + offset + from,
            from,
            copied: true,
        });
    }
    Some(NextPlace {
        place: base + offset + count,
        from: 0,
        copied: false,
    })
}

// Whether the bytes are some, all in the work buffer, and fit the slot, which lies in the area.
fn fits_slot(
    area: usize,
    work: usize,
    size: usize,
    slot: usize,
    offset: usize,
    count: usize,
) -> bool
    requires { (size < 4294967296) × (slot < 4294967296) × (offset < 4294967296) × (count < 4294967296) }
    ensures { result ≡ fits_slot area work size slot offset count }
{
    if count == 0 {
        return false;
    }
    if work < count {
        return false;
    }
    if size < offset + count {
        return false;
    }
    slot * size + size <= area
}

// The next store of an operation that has `left` stores left, and that makes `first` stores of 0 at the slot's byte 0 before it
// commits.
fn slot_place(
    area: usize,
    work: usize,
    size: usize,
    slot: usize,
    offset: usize,
    count: usize,
    first: usize,
    left: usize,
) -> Option<NextPlace<usize>>
    requires { (size < 4294967296) × (slot < 4294967296) × (offset < 4294967296) × (count < 4294967296) × (first ≤ 1) }
    ensures { result ≡ slot_place area work size slot offset count first left }
{
    if !fits_slot(area, work, size, slot, offset, count) {
        return None;
    }
    let total = commit_stores(size, offset, count) + first;
    if left == 0 {
        return None;
    }
    if total < left {
        return None;
    }
    if total - left < first {
        return Some(NextPlace {
            place: slot * size,
            from: 0,
            copied: false,
        });
    }
    commit_place(slot * size, size, offset, count, total - left - first)
}

// Where the bytes of a new head go.
pub fn head_target(slot: u32, length: u32, left: u32) -> Target
    ensures { result ≡ head_target slot length left }
{
    Target {
        slot,
        offset: 0,
        count: length,
        first: 1,
        left,
    }
}

// Where the next store goes and whence its byte comes, of an operation whose bytes go to `to`.
pub fn next_place(size: u32, to: Target, area: usize, work: usize) -> Option<NextPlace<usize>>
    requires { to.first ≤ 1 }
    ensures { result ≡ slot_place area work size to.slot to.offset to.count to.first to.left }
{
    slot_place(
        area,
        work,
        size as usize,
        to.slot as usize,
        to.offset as usize,
        to.count as usize,
        to.first as usize,
        to.left as usize,
    )
}
