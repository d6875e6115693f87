// Whether the pending operation agrees with the record, as far as these two tell, and where its bytes go. A step that goes on without
// these tests would find out only behind its store.
ghost use Rattle.std.specs.Prelude.{◌≤◌, ◌≡◌, ltb};
ghost use Rattle.segment.specs.Choice.{both};
ghost use Rattle.segment.specs.Layout.{digest_size, version_limit};
ghost use Rattle.record.specs.Switch.{new_layout};
ghost use Rattle.telling.specs.Agree.{entry_agrees, slot_agrees, victims_agree, forget_agrees, agrees_with};
ghost use Rattle.telling.specs.Next.{target_of};

use crate::next::head_target;
use crate::{Aim, Target};
use record::{Pending, Record, new_edition};
use segment::Edition;
use segment::layout::{NUMBER_LIMIT, digest_size, head_size, version_limit};
use slot_map::{has_slot, is_within};

// Whether there is a version left in an edition.
fn version_left(edition: Edition, rec: Record) -> bool
    ensures { result ≡ ltb rec.next.0 (version_limit edition) }
{
    let next = rec.next;
    next.0 < version_limit(edition)
}

// Whether there is a version left, and an entry in `count` bytes behind the first `before`.
fn entry_agrees(edition: Edition, rec: Record, before: usize, count: usize) -> bool
    requires { before ≤ 2048 }
    ensures { result ≡ entry_agrees edition rec before count }
{
    if !version_left(edition, rec) {
        return false;
    }
    before + head_size(edition) <= count
}

// Whether a new head's slot is one of the store's that is not in use, and there is a digest number left.
fn slot_agrees(rec: Record, slot: u32) -> bool
    requires { rec.slots ≤ 32 }
    ensures { result ≡ slot_agrees rec slot }
{
    let number = rec.digest;
    if rec.slots <= slot {
        return false;
    }
    if NUMBER_LIMIT <= number.0 {
        return false;
    }
    !has_slot(rec.map, slot)
}

// Whether the victims are some of the map's slots, and `count` bytes hold a digest.
fn victims_agree(edition: Edition, rec: Record, victims: u32, count: usize) -> bool
    ensures { result ≡ victims_agree edition rec victims count }
{
    if count < digest_size(edition) {
        return false;
    }
    if victims == 0 {
        return false;
    }
    is_within(victims, rec.map)
}

// The same for a delete that cleans, for which there must be a version left too.
fn forget_agrees(edition: Edition, rec: Record, victims: u32, count: usize) -> bool
    ensures { result ≡ forget_agrees edition rec victims count }
{
    if !version_left(edition, rec) {
        return false;
    }
    victims_agree(edition, rec, victims, count)
}

// Whether a new head with one entry agrees, in the edition that it will have.
fn head_agrees(rec: Record, slot: u32, count: u32) -> bool
    requires { rec.slots ≤ 32 }
    ensures { result ≡ both (slot_agrees rec slot) (entry_agrees (new_layout rec) rec (digest_size (new_layout rec)) count) }
{
    let edition = new_edition(rec);
    slot_agrees(rec, slot) && entry_agrees(edition, rec, digest_size(edition), count as usize)
}

// Whether a cleaning agrees.
fn clean_agrees(rec: Record, slot: u32, victims: u32, count: u32) -> bool
    requires { rec.slots ≤ 32 }
    ensures { result ≡ both (slot_agrees rec slot) (victims_agree (new_layout rec) rec victims count) }
{
    let edition = new_edition(rec);
    slot_agrees(rec, slot) && victims_agree(edition, rec, victims, count as usize)
}

// Whether a delete that cleans agrees.
fn delete_agrees(rec: Record, slot: u32, victims: u32, count: u32) -> bool
    requires { rec.slots ≤ 32 }
    ensures { result ≡ both (slot_agrees rec slot) (forget_agrees (new_layout rec) rec victims count) }
{
    let edition = new_edition(rec);
    slot_agrees(rec, slot) && forget_agrees(edition, rec, victims, count as usize)
}

// Whether the pending operation agrees with the record, and where its bytes go: an append commits at the head's end, a new head at
// its start after a store of 0 there. Both by its kind, which is told apart once.
pub fn aim_of(rec: Record) -> Aim
    requires { rec.slots ≤ 32 }
    ensures { result ≡ record { agreed = agrees_with rec.edition rec rec.pending; to = target_of rec.pending rec.head rec.end } }
{
    let edition = rec.edition;
    let pending = rec.pending;
    match pending {
        Pending::Idle => Aim {
            agreed: false,
            to: Target {
                slot: 0,
                offset: 0,
                count: 0,
                first: 0,
                left: 0,
            },
        },
        Pending::Append { length, left } => Aim {
            agreed: entry_agrees(edition, rec, 0, length as usize),
            to: Target {
                slot: rec.head,
                offset: rec.end,
                count: length,
                first: 0,
                left,
            },
        },
        Pending::NewHead { slot, length, left } => Aim {
            agreed: head_agrees(rec, slot, length),
            to: head_target(slot, length, left),
        },
        Pending::Clean {
            slot,
            victims,
            length,
            left,
        } => Aim {
            agreed: clean_agrees(rec, slot, victims, length),
            to: head_target(slot, length, left),
        },
        Pending::Forget {
            slot,
            victims,
            length,
            left,
        } => Aim {
            agreed: delete_agrees(rec, slot, victims, length),
            to: head_target(slot, length, left),
        },
    }
}
