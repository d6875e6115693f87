// The second walk, over the tombstones alone: for each slot the bytes that are kept of it, as they are rewritten in the edition of
// the new head, and for each other slot how many of them go where that one is a victim too. No key is searched for: a tombstone that
// is not its key's latest entry has no note.
ghost use Rattle.std.specs.Prelude.{◌+◌, ◌*◌, ◌≤◌, ◌<◌, ◌≡◌, length};
ghost use Rattle.cleaning.specs.Entries.{SlotsFit};
ghost use Rattle.joining.specs.Notes.{NotesFit, TombstonesCounted};
ghost use Rattle.joining.specs.Weights.{note_share, Low, shares_with, share_length, ShareFits, Weighed, Clear, Rows, Passed};

use crate::Share;
use crate::notes::SHORTEST;
use cleaning::Split;
use drive_log::slots::is_named;
use segment::area::cut;
use segment::entries::next;
use segment::layout::{digest_size, head_size};
use segment::reader::edition_of;
use segment::{Edition, Next};

// What a note of the objects of its key leaves of a tombstone.
fn note_share(note: u8) -> Share
    ensures { result ≡ note_share note }
{
    if note == 0 {
        return Share::Nothing;
    }
    if 32 < note {
        return Share::Whole;
    }
    Share::Unless(note as usize - 1)
}

// The share of a tombstone added to its slot's numbers, which start at `base`: it answers what the slot's total grows by.
fn add_share(shares: &mut [u16], base: usize, share: Share, count: usize) -> usize
    requires shares_len { length shares.old ≡ 1024 }
    requires base_bound { base ≤ 992 }
    requires low { Low shares.old base 4096 }
    requires share_fits { ShareFits share }
    requires count_bound { count ≤ 2048 }
    ensures { (result ≡ share_length share count) × (shares.new ≡ shares_with shares.old base share count) }
{
    match share {
        Share::Nothing => 0,
        Share::Whole => count,
        Share::Unless(p) => {
            let at = base + p;
            shares[at] = shares[at] + count as u16;
            count
        }
    }
}

// The place behind the objects of that length that stand from a place on, one behind the other. Their length is given, and not
// taken from each header, so that no turn waits until the turn before has read a length.
fn behind(edition: Edition, s: &[u8], from: usize, count: usize) -> usize
    requires from_in_bounds { from ≤ length s.now }
    requires s_len_bound { length s.now ≤ 2048 }
    ensures { Passed edition s.now from result }
{
    let mut at = from;
    loop {
        match next(edition, s, at) {
            Next::Entry(header) => {
                if header.tombstone {
                    return at;
                }
                if header.length != count {
                    return at;
                }
                at += count;
            }
            Next::End => {
                return at;
            }
            Next::Damage => {
                return at;
            }
        }
    }
}

// What is kept of a slot's tombstones, read in an edition and counted in that of the new head; its numbers hold what goes by the
// other victim. Damage ends a segment too.
fn weigh_slot(
    edition: Edition,
    into: Edition,
    area: &[u8],
    notes: &[u8],
    split: Split,
    slot: usize,
    shares: &mut [u16],
) -> usize
    requires slots_fit { SlotsFit split area.now }
    requires notes_len { length notes.now ≡ 5958 }
    requires slot_lt_slots { slot < split.slots }
    requires shares_len { length shares.old ≡ 1024 }
    requires clear { Clear shares.old (slot * 32) }
    ensures { Weighed edition into area.now notes.now split.size slot shares.old shares.new result }
{
    let size = split.size;
    let base = slot * 32;
    let s = cut(size, area, slot);
    let head = head_size(edition);
    let counted = head_size(into);
    let mut at = digest_size(edition);
    let mut total = 0;
    loop {
        match next(edition, s, at) {
            Next::Entry(header) => {
                if header.tombstone {
                    let share = note_share(notes[(slot * size + at) / SHORTEST]);
                    total += add_share(shares, base, share, counted);
                    at += head;
                } else {
                    at = behind(edition, s, at + header.length, header.length);
                }
            }
            Next::End => {
                return total;
            }
            Next::Damage => {
                return total;
            }
        }
    }
}

// The same in the slot's own edition, added to its total; nothing where the slot is not of the log or has no tombstones.
fn weigh_part(
    into: Edition,
    area: &[u8],
    cells: &[u32],
    notes: &[u8],
    tombstones: &[u32],
    split: Split,
    slot: usize,
    totals: &mut [u32],
    shares: &mut [u16],
)
    requires notes_fit { NotesFit split area.now cells.now notes.now }
    requires slot_lt_slots { slot < split.slots }
    requires tombstones_counted { TombstonesCounted into area.now split split.slots tombstones.now }
    requires rows { Rows into area.now cells.now notes.now split slot totals.old shares.old }
    ensures { Rows into area.now cells.now notes.now split (slot + 1) totals.new
        shares.new }
{
    if !is_named(split.outside, slot) {
        return;
    }
    if tombstones[slot] == 0 {
        return;
    }
    let edition = edition_of(cut(split.size, area, slot));
    let total = weigh_slot(edition, into, area, notes, split, slot, shares);
    totals[slot] = totals[slot] + total as u32;
}

// The numbers of all slots of the log, counted in the edition of the new head.
pub fn weigh_all(
    into: Edition,
    area: &[u8],
    cells: &[u32],
    notes: &[u8],
    tombstones: &[u32],
    split: Split,
    totals: &mut [u32],
    shares: &mut [u16],
)
    requires notes_fit { NotesFit split area.now cells.now notes.now }
    requires tombstones_counted { TombstonesCounted into area.now split split.slots tombstones.now }
    requires rows { Rows into area.now cells.now notes.now split 0 totals.old shares.old }
    ensures { Rows into area.now cells.now notes.now split split.slots totals.new
        shares.new }
{
    for i in 0..split.slots {
        weigh_part(
            into, area, cells, notes, tombstones, split, i, totals, shares,
        );
    }
}
