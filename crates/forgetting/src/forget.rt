// A delete that finds no room: a cleaning of the slot with the live object, in whose place stands the tombstone if an object of
// the key is left outside, and else nothing.
ghost use Rattle.std.specs.Prelude.{◌≤◌, ◌≡◌, true};
ghost use Rattle.record.specs.Switch.{new_layout};
ghost use Rattle.index.specs.Search.{search_for};
ghost use Rattle.index.specs.SearchLaws.{Inside};
ghost use Rattle.index.specs.declared.Found.TheVariants.{At};
ghost use Rattle.starting.specs.NewHead.{NumberLeft};
ghost use Rattle.cleaning.specs.Entries.{SplitFits};
ghost use Rattle.forgetting.specs.Forgot.{forgot_slot, forgot_own, fits_segment};
ghost use Rattle.forgetting.specs.Sifted.{sifted_marks};
ghost use Rattle.forgetting.specs.Forgetting.{ForgetReady, VictimReady, in_log, forgot_begun, forgot_fitting, forgot_at, forgot_for};

use crate::Live;
use crate::copy::put_slot;
use crate::room::fits_segment;
use cleaning::Split;
use cleaning::clean::split_of;
use cleaning::filter::put;
use cleaning::marks::is_marked;
use cleaning::noted::note_victims;
use cleaning::outside::mark_outside;
use drive_log::slots::is_named;
use index::Found;
use index::search::search;
use record::{Pending, Record, Refusal, Start, new_edition};
use segment::area::cut;
use segment::reader::edition_of;
use segment::writer::write_digest;
use segment::{Edition, Key, Version};
use slot_map::{next_free, with_slot};
use starting::answer::{refused, started};
use starting::digest::new_digest;
use starting::stores::head_stores;
use writing::full::check_full;

// Whether a slot is one of the log's.
fn in_log(rec: Record, slot: usize) -> bool
    requires { rec.slots ≤ 32 }
    ensures { result ≡ in_log rec slot }
{
    if rec.slots as usize <= slot {
        return false;
    }
    is_named(rec.map, slot)
}

// The new head's bytes, in its edition, go to the work buffer, and the delete is pending. Its digest has the next version after the
// delete.
fn begin(
    rec: Record,
    edition: Edition,
    into: Edition,
    area: &[u8],
    index: &[u32],
    marks: &[u32],
    work: &mut [u8],
    live: Live,
    split: Split,
    slot: usize,
) -> Start
    requires victim_ready { VictimReady rec.edition rec area.now marks.now work.old split slot }
    requires number_left { NumberLeft rec }
    requires slot_value { fits_segment into split.size
        (forgot_slot edition into area.now index.now marks.now live split.size slot) ≡ true }
    ensures { record { start = result; work = work.new }
        ≡ forgot_begun into rec split.victims work.old
        (forgot_slot edition into area.now index.now marks.now live split.size slot) }
{
    let next = rec.next;
    let victims = split.victims;
    let head = next_free(rec.slots, rec.map, rec.head);
    write_digest(
        into,
        work,
        0,
        new_digest(rec, victims, head, Version(next.0 + 1)),
    );
    let count = put_slot(edition, into, area, index, marks, live, split, slot, work);
    let left = head_stores(rec.size as usize, count) as u32;
    let length = count as u32;
    let pending = Pending::Forget {
        slot: head,
        victims,
        length,
        left,
    };
    started(rec, pending, left)
}

// The live object and its slot are known. What comes of the slot, rewritten, is held against a segment before a byte of the work buffer
// changes: 12, and then 10 (02, R-13).
fn forget_live(
    rec: Record,
    area: &[u8],
    index: &[u32],
    marks: &[u32],
    work: &mut [u8],
    live: Live,
    split: Split,
    slot: usize,
) -> Start
    requires { VictimReady rec.edition rec area.now marks.now work.old split slot }
    ensures { record { start = result; work = work.new }
        ≡ forgot_fitting (new_layout rec) rec split.victims work.old
        (forgot_own (new_layout rec) area.now index.now marks.now live split.size slot) }
{
    let into = new_edition(rec);
    let edition = edition_of(cut(split.size, area, slot));
    let fits = fits_segment(edition, into, area, index, marks, live, split, slot);
    match check_full(rec, fits) {
        Err(c) => refused(rec, c),
        Ok(()) => begin(
            rec, edition, into, area, index, marks, work, live, split, slot,
        ),
    }
}

// Marks the cells of the keys of objects outside the victim, of the key itself and those of the victim's tombstones: no other
// mark is looked at.
fn mark_left(area: &[u8], index: &[u32], marks: &mut [u32], split: Split, key: Key)
    requires { SplitFits split area.now marks.old }
    ensures { marks.new ≡ sifted_marks area.now index.now split key marks.old }
{
    let mut filter = [0u32; 128];
    put(&mut filter, key);
    note_victims(area, &mut filter, split);
    mark_outside(area, index, &filter, marks, split);
}

// The key's cell in the index tells the place of the live object, and so the victim. On a store that is none of ours the place
// may lie outside the log.
fn forget_at(
    rec: Record,
    area: &[u8],
    index: &[u32],
    work: &mut [u8],
    key: Key,
    cell: usize,
) -> Start
    requires forget_ready { ForgetReady rec.edition rec area.now index.now work.old }
    requires inside { Inside area.now index.now cell }
    requires key_value { search_for area.now index.now key ≡ At cell }
    ensures { record { start = result; work = work.new }
        ≡ forgot_at (new_layout rec) rec area.now index.now key work.old cell }
{
    let place = (index[cell] - 1) as usize;
    let slot = place / rec.size as usize;
    if !in_log(rec, slot) {
        return refused(rec, Refusal::BadRecord);
    }
    let split = split_of(rec, with_slot(0, slot as u32));
    let mut marks = [0u32; 128];
    mark_left(area, index, &mut marks, split, key);
    let needed = is_marked(&marks, cell);
    let version = rec.next;
    let live = Live {
        place,
        needed,
        key,
        version,
    };
    forget_live(rec, area, index, &marks, work, live, split, slot)
}

// A delete of a present key that finds no room.
pub fn forget(rec: Record, area: &[u8], index: &[u32], work: &mut [u8], key: Key) -> Start
    requires { ForgetReady rec.edition rec area.now index.now work.old }
    ensures { record { start = result; work = work.new }
        ≡ forgot_for (new_layout rec) rec area.now index.now key work.old }
{
    match search(area, index, key) {
        Found::At(cell) => forget_at(rec, area, index, work, key, cell),
        Found::Free(_) => refused(rec, Refusal::BadRecord),
        Found::Full => refused(rec, Refusal::BadRecord),
    }
}
