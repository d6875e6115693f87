// The last step: the record and the index brought up to date. The area is only read.
ghost use Rattle.std.specs.Prelude.{◌+◌, ◌*◌, ◌-◌, ◌≤◌, ◌<◌, true, ◌≡◌, length, take};
ghost use Rattle.index.specs.Build.{Rebuilt, built};
ghost use Rattle.segment.specs.Area.{segment_of};
ghost use Rattle.segment.specs.Entry.{entry_at, answer};
ghost use Rattle.counting.specs.Counting.{renewed_at};
ghost use Rattle.model.specs.Operations.{append_commit, head_commit};
ghost use Rattle.stepping.specs.Finish.{refused_step, keys_after, lost_by, counts_after, answered_with, entry_in, finish_entry, finish_append, finish_head, finish_rebuilt, finish_clean, finish_forget, one_less, finish_with, advanced};
ghost use Rattle.record.specs.Answers.{stores_left};
ghost use Rattle.record.specs.Range.{counts_good, most_present};
ghost use Rattle.record.specs.Switch.{new_layout};
ghost use Rattle.telling.specs.Next.{PendingIn};
ghost use Rattle.telling.specs.Agree.{agrees_with};

use counting::{lost_at, more, renew};
use index::Inserted;
use index::build::build;
use index::put::insert;
use record::{
    Answered, Commit, Pending, Progress, Record, Refusal, Stepped, committed, new_edition,
    stores_left, with_pending,
};
use segment::area::cut;
use segment::layout::digest_size;
use segment::reader::read;
use segment::{DigestNumber, Edition, Key, Read, Version};
use slot_map::{with_slot, without_slots};

// The record goes back as it was.
pub fn refused(rec: Record, cause: Refusal) -> Stepped
    ensures { result ≡ refused_step rec cause }
{
    Answered {
        answer: Err(cause),
        rec: rec,
    }
}

// `count` more bytes in the head, whose edition stays, and the next version taken.
fn append_commit(rec: Record, count: u32) -> Commit
    requires { (rec.end + count < 4294967296) × (rec.next.0 < 18446744073709551615) }
    ensures { result ≡ append_commit rec count }
{
    let edition = rec.edition;
    let number = rec.digest;
    let next = rec.next;
    Commit {
        edition,
        head: rec.head,
        end: rec.end + count,
        digest: number,
        map: rec.map,
        next: Version(next.0 + 1),
    }
}

// A new head of `count` bytes in a slot, in the edition that new heads have, with this map and this next version.
fn head_commit(rec: Record, slot: u32, count: u32, map: u32, next: Version) -> Commit
    requires { rec.digest.0 < 4294967295 }
    ensures { result ≡ head_commit (new_layout rec) rec slot count map next }
{
    let edition = new_edition(rec);
    let number = rec.digest;
    Commit {
        edition,
        head: slot,
        end: count,
        digest: DigestNumber(number.0 + 1),
        map: map,
        next: next,
    }
}

// How many keys there are after an insertion.
fn keys_after(answer: Inserted, keys: u32) -> Option<usize>
    ensures { result ≡ keys_after answer keys }
{
    match answer {
        Inserted::New => Some(keys as usize + 1),
        Inserted::Newer(_) => Some(keys as usize),
        Inserted::Older => Some(keys as usize),
        Inserted::Full => None,
    }
}

// Where an older entry of the key was indexed, the object there counts no longer.
fn lost_by(counts: &mut [u32], size: usize, area: &[u8], answer: Inserted)
    requires { (0 < size) × (size ≤ 2048) }
    ensures { counts.new ≡ lost_by size area.now answer counts.old }
{
    match answer {
        Inserted::New => {}
        Inserted::Newer(old) => lost_at(counts, size, area, old as usize),
        Inserted::Older => {}
        Inserted::Full => {}
    }
}

// The present bytes once an entry, of which so many bytes count, has come to a slot.
fn entry_counts(rec: Record, area: &[u8], answer: Inserted, slot: u32, bytes: usize) -> [u32; 32]
    requires { (0 < rec.size)
        × (rec.size ≤ 2048)
        × (bytes ≤ 2048)
        × (counts_good (most_present rec.size) rec.counts ≡ true) }
    ensures { result ≡ counts_after rec area.now answer slot bytes }
{
    let mut counts = rec.counts;
    lost_by(&mut counts, rec.size as usize, area, answer);
    more(&mut counts, slot as usize, bytes);
    counts
}

// The version is told, and the new record gets its number of keys and its present bytes.
fn answered(
    rec: Record,
    done: Commit,
    version: Version,
    counts: [u32; 32],
    keys: Option<usize>,
) -> Stepped
    ensures { result ≡ answered_with rec done version.0 counts keys }
{
    match keys {
        Some(n) => {
            if n < rec.cells as usize {
                return Answered {
                    answer: Ok(Progress::Done(version)),
                    rec: committed(rec, done, n as u32, counts),
                };
            }
            refused(rec, Refusal::BadRecord)
        }
        None => refused(rec, Refusal::BadRecord),
    }
}

// The entry of a key at a place of the area goes into the index; so many of its bytes count in its slot.
fn put_entry(
    rec: Record,
    done: Commit,
    area: &[u8],
    index: &mut [u32],
    slot: u32,
    bytes: usize,
    place: usize,
    key: Key,
) -> Stepped
    requires { (0 < rec.size)
        × (rec.size ≤ 2048)
        × (bytes ≤ 2048)
        × (counts_good (most_present rec.size) rec.counts ≡ true)
        × (place < 4294967295) }
    ensures { record { stepped = result; cells = index.new }
        ≡ entry_in rec done area.now index.old slot bytes place key }
{
    let version = rec.next;
    let answer = insert(area, index, place, key, version);
    let keys = keys_after(answer, rec.keys);
    let counts = entry_counts(rec, area, answer, slot, bytes);
    answered(rec, done, version, counts, keys)
}

// What stands at an offset of a slot's segment.
fn stands_in(edition: Edition, size: usize, area: &[u8], slot: usize, offset: usize) -> Read
    requires { slot * size + size ≤ length area.now }
    ensures { result ≡ answer edition (entry_at edition (segment_of area.now size slot) offset) }
{
    read(edition, cut(size, area, slot), offset)
}

// The entry at an offset of a slot goes into the index. The reader gets the slot's segment, which is cut from the area at
// slot × size; after the commit this is the head, so that it has the commit's edition.
fn finish_entry(
    rec: Record,
    done: Commit,
    area: &[u8],
    index: &mut [u32],
    slot: u32,
    offset: usize,
) -> Stepped
    requires { (slot < 32)
        × (0 < rec.size)
        × (rec.size ≤ 2048)
        × (offset ≤ 2048)
        × (slot * rec.size + rec.size ≤ length area.now)
        × (counts_good (most_present rec.size) rec.counts ≡ true) }
    ensures { record { stepped = result; cells = index.new } ≡ finish_entry done.edition rec done area.now index.old slot offset }
{
    let edition = done.edition;
    let size = rec.size as usize;
    let place = slot as usize * size + offset;
    match stands_in(edition, size, area, slot as usize, offset) {
        Read::Object {
            key,
            version: _,
            kind: _,
            length,
        } => put_entry(rec, done, area, index, slot, length, place, key),
        Read::Tombstone {
            key,
            version: _,
            length: _,
        } => put_entry(rec, done, area, index, slot, 0, place, key),
        Read::End => refused(rec, Refusal::BadRecord),
        Read::Damage => refused(rec, Refusal::BadRecord),
    }
}

// The last step of a write or delete whose entry is in the head.
fn finish_append(rec: Record, area: &[u8], index: &mut [u32], count: u32) -> Stepped
    requires { (rec.slots ≤ 32)
        × (rec.size ≤ 2048)
        × (length area.now ≡ rec.slots * rec.size)
        × (rec.head < rec.slots)
        × (rec.end + count ≤ rec.size)
        × (rec.next.0 < 18446744073709551615)
        × (0 < rec.size)
        × (counts_good (most_present rec.size) rec.counts ≡ true) }
    ensures { record { stepped = result; cells = index.new } ≡ finish_append rec.edition rec area.now index.old count }
{
    let done = append_commit(rec, count);
    finish_entry(rec, done, area, index, rec.head, rec.end as usize)
}

// The last step of a write or delete whose entry is in a new head.
fn finish_head(rec: Record, area: &[u8], index: &mut [u32], slot: u32, count: u32) -> Stepped
    requires { (rec.slots ≤ 32)
        × (rec.size ≤ 2048)
        × (length area.now ≡ rec.slots * rec.size)
        × (slot < rec.slots)
        × (rec.next.0 < 18446744073709551615)
        × (rec.digest.0 < 4294967295)
        × (0 < rec.size)
        × (counts_good (most_present rec.size) rec.counts ≡ true) }
    ensures { record { stepped = result; cells = index.new } ≡ finish_head rec area.now index.old slot count }
{
    let next = rec.next;
    let map = with_slot(rec.map, slot);
    let done = head_commit(rec, slot, count, map, Version(next.0 + 1));
    let edition = done.edition;
    finish_entry(rec, done, area, index, slot, digest_size(edition))
}

// The slots, ascending.
const SLOTS: [u8; 32] = [
    0, 1, 2, 3, 4, 5, 6, 7, 8, 9, 10, 11, 12, 13, 14, 15, 16, 17, 18, 19, 20, 21, 22, 23, 24, 25,
    26, 27, 28, 29, 30, 31,
];

// The index rebuilt under a map, slot by slot in the order of the first of a list.
fn rebuild(rec: Record, area: &[u8], index: &mut [u32], order: &[u8], map: u32) -> Option<usize>
    requires { (rec.size ≤ 2048) × (rec.slots ≤ length order.now) }
    ensures { ◌≡◌ {A = Rebuilt} (record { answer = result; cells = index.new })
        (built area.now rec.size map (take rec.slots order.now) (length index.old)) }
{
    let slots = rec.slots as usize;
    build(area, index, &order[0..slots], rec.size as usize, map)
}

// The present bytes once a new head in a slot has taken over what the victims held.
fn renewed_counts(rec: Record, area: &[u8], slot: u32, victims: u32) -> [u32; 32]
    requires { (slot < 32) × (rec.size ≤ 2048) × (slot * rec.size + rec.size ≤ length area.now) }
    ensures { result ≡ renewed_at rec.size area.now slot victims rec.counts }
{
    let mut counts = rec.counts;
    renew(&mut counts, rec.size as usize, area, slot as usize, victims);
    counts
}

// The last step of an operation that takes slots out of the log: the index is rebuilt under the new map, slot by slot.
fn finish_rebuilt(
    rec: Record,
    area: &[u8],
    index: &mut [u32],
    slot: u32,
    victims: u32,
    done: Commit,
    version: Version,
) -> Stepped
    requires { (rec.slots ≤ 32)
        × (rec.size ≤ 2048)
        × (slot < 32)
        × (slot * rec.size + rec.size ≤ length area.now) }
    ensures { record { stepped = result; cells = index.new }
        ≡ finish_rebuilt rec area.now index.old slot victims done version.0 }
{
    let keys = rebuild(rec, area, index, &SLOTS, done.map);
    let counts = renewed_counts(rec, area, slot, victims);
    answered(rec, done, version, counts, keys)
}

// The last step of a cleaning, which has no version of its own.
fn finish_clean(
    rec: Record,
    area: &[u8],
    index: &mut [u32],
    slot: u32,
    victims: u32,
    count: u32,
) -> Stepped
    requires { (rec.slots ≤ 32)
        × (rec.size ≤ 2048)
        × (length area.now ≡ rec.slots * rec.size)
        × (slot < rec.slots)
        × (rec.digest.0 < 4294967295) }
    ensures { record { stepped = result; cells = index.new } ≡ finish_clean rec area.now index.old slot victims count }
{
    let next = rec.next;
    let map = with_slot(without_slots(rec.map, victims), slot);
    let done = head_commit(rec, slot, count, map, next);
    finish_rebuilt(rec, area, index, slot, victims, done, Version(0))
}

// The last step of a delete that cleans: it tells its version, and the next version goes up.
fn finish_forget(
    rec: Record,
    area: &[u8],
    index: &mut [u32],
    slot: u32,
    victims: u32,
    count: u32,
) -> Stepped
    requires { (rec.slots ≤ 32)
        × (rec.size ≤ 2048)
        × (length area.now ≡ rec.slots * rec.size)
        × (slot < rec.slots)
        × (rec.next.0 < 18446744073709551615)
        × (rec.digest.0 < 4294967295) }
    ensures { record { stepped = result; cells = index.new } ≡ finish_forget rec area.now index.old slot victims count }
{
    let next = rec.next;
    let map = with_slot(without_slots(rec.map, victims), slot);
    let done = head_commit(rec, slot, count, map, Version(next.0 + 1));
    finish_rebuilt(rec, area, index, slot, victims, done, next)
}

// The pending operation with one store less.
fn one_less(pending: Pending) -> Pending
    requires { 0 < stores_left pending }
    ensures { result ≡ one_less pending }
{
    match pending {
        Pending::Idle => Pending::Idle,
        Pending::Append { length, left } => Pending::Append {
            length,
            left: left - 1,
        },
        Pending::NewHead { slot, length, left } => Pending::NewHead {
            slot,
            length,
            left: left - 1,
        },
        Pending::Clean {
            slot,
            victims,
            length,
            left,
        } => Pending::Clean {
            slot,
            victims,
            length,
            left: left - 1,
        },
        Pending::Forget {
            slot,
            victims,
            length,
            left,
        } => Pending::Forget {
            slot,
            victims,
            length,
            left: left - 1,
        },
    }
}

// The last step, by the kind of the operation, which agrees with the record.
fn finish(rec: Record, area: &[u8], index: &mut [u32]) -> Stepped
    requires { (rec.slots ≤ 32)
        × (rec.size ≤ 2048)
        × (length area.now ≡ rec.slots * rec.size)
        × PendingIn rec rec.pending
        × (agrees_with rec.edition rec rec.pending ≡ true)
        × (0 < rec.size)
        × (counts_good (most_present rec.size) rec.counts ≡ true) }
    ensures { record { stepped = result; cells = index.new } ≡ finish_with rec.edition rec area.now index.old rec.pending }
{
    let pending = rec.pending;
    match pending {
        Pending::Idle => refused(rec, Refusal::BadRecord),
        Pending::Append { length, left: _ } => finish_append(rec, area, index, length),
        Pending::NewHead {
            slot,
            length,
            left: _,
        } => finish_head(rec, area, index, slot, length),
        Pending::Clean {
            slot,
            victims,
            length,
            left: _,
        } => finish_clean(rec, area, index, slot, victims, length),
        Pending::Forget {
            slot,
            victims,
            length,
            left: _,
        } => finish_forget(rec, area, index, slot, victims, length),
    }
}

// What comes after a step's store: with stores left they are one less, else the operation is finished.
pub fn advance(rec: Record, area: &[u8], index: &mut [u32]) -> Stepped
    requires { (0 < stores_left rec.pending)
        × (rec.slots ≤ 32)
        × (rec.size ≤ 2048)
        × (length area.now ≡ rec.slots * rec.size)
        × PendingIn rec rec.pending
        × (agrees_with rec.edition rec rec.pending ≡ true)
        × (0 < rec.size)
        × (counts_good (most_present rec.size) rec.counts ≡ true) }
    ensures { record { stepped = result; cells = index.new } ≡ advanced rec.edition rec area.now index.old }
{
    let pending = rec.pending;
    let left = stores_left(pending);
    if 1 < left {
        let rest = one_less(pending);
        return Answered {
            answer: Ok(Progress::Left(left - 1)),
            rec: with_pending(rec, rest),
        };
    }
    finish(rec, area, index)
}
