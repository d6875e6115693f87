// The first walk, with the only search for each object: the bytes of the objects that are kept of each slot, as they are rewritten
// in the edition of the new head, and a byte for each latest entry of a key that tells in which slots, but for its own, objects of
// the key stand.
ghost use Rattle.std.specs.Prelude.{◌+◌, ◌*◌, ◌≤◌, ◌<◌, ◌≡◌, length};
ghost use Rattle.index.specs.Search.{search_for};
ghost use Rattle.joining.specs.Notes.{note_with, elsewhere, note_newest, note_found, note_slot, note_part, note_all, NotesFit, found_length, Summed, ObjectsCounted, TombstonesCounted};

use crate::Sums;
use cleaning::Split;
use drive_log::slots::is_named;
use index::Found;
use index::search::search;
use segment::area::cut;
use segment::entries::next;
use segment::layout::{digest_size, head_size};
use segment::reader::edition_of;
use segment::{Edition, Key, Next};

// More slots than one. A note is a byte and no enum, which would take two: there is one for each entry.
const SEVERAL: u8 = 64;

// No entry of either edition is shorter, so that no two have the same note.
pub const SHORTEST: usize = 11;

// A note with one slot more.
fn note_with(note: u8, slot: usize) -> u8
    requires { slot < 32 }
    ensures { result ≡ note_with note slot }
{
    let own = (slot + 1) as u8;
    if note == 0 {
        return own;
    }
    if note == own {
        return note;
    }
    SEVERAL
}

// Whether a cell's entry stands in another slot.
fn is_elsewhere(cell: usize, size: usize, slot: usize) -> bool
    requires slot_bound { slot < 32 }
    requires size_bound { size ≤ 2048 }
    ensures { result ≡ elsewhere size slot cell }
{
    let low = slot * size;
    if cell <= low {
        return true;
    }
    low + size < cell
}

// Notes a slot for the entry of a cell, if that stands in another one.
fn note_cell(notes: &mut [u8], newest: usize, size: usize, slot: usize)
    requires newest_nonzero { 0 < newest }
    requires newest_bound { newest ≤ 65536 }
    requires notes_len { length notes.old ≡ 5958 }
    requires slot_bound { slot < 32 }
    requires size_bound { size ≤ 2048 }
    ensures { notes.new ≡ note_newest size slot newest notes.old }
{
    if !is_elsewhere(newest, size, slot) {
        return;
    }
    let at = (newest - 1) / SHORTEST;
    notes[at] = note_with(notes[at], slot);
}

// The bytes kept of an object of a slot that is `count` bytes long once rewritten, by one search for its key. One that is not its
// key's latest entry is noted.
fn note_key(
    area: &[u8],
    cells: &[u32],
    notes: &mut [u8],
    key: Key,
    count: usize,
    size: usize,
    slot: usize,
    place: usize,
) -> usize
    requires area_len_bound { length area.now ≤ 65536 }
    requires notes_len { length notes.old ≡ 5958 }
    requires slot_bound { slot < 32 }
    requires size_bound { size ≤ 2048 }
    requires size_bound_2 { slot * size ≤ place }
    requires place_bound { place < slot * size + size }
    ensures { (result ≡ found_length cells.now place count (search_for area.now cells.now key))
        × (notes.new
        ≡ note_found size slot cells.now notes.old (search_for area.now cells.now key)) }
{
    match search(area, cells, key) {
        Found::At(i) => {
            let newest = cells[i] as usize;
            if newest == place + 1 {
                return count;
            }
            note_cell(notes, newest, size, slot);
            0
        }
        Found::Free(_) => 0,
        Found::Full => 0,
    }
}

// The sums of a slot, read in an edition and counted in that of the new head. Only what stands before the value may be of another
// length there (02, R-13). Damage ends a segment too. A tombstone's length is not taken from its header, so that no turn waits
// until the turn before has read a length.
fn note_slot(
    edition: Edition,
    into: Edition,
    area: &[u8],
    cells: &[u32],
    notes: &mut [u8],
    split: Split,
    slot: usize,
) -> Sums
    requires notes_fit { NotesFit split area.now cells.now notes.old }
    requires slot_lt_slots { slot < split.slots }
    ensures { Summed edition into area.now cells.now split.size slot result
        × (notes.new ≡ note_slot edition area.now cells.now split.size notes.old slot) }
{
    let size = split.size;
    let s = cut(size, area, slot);
    let head = head_size(edition);
    let counted = head_size(into);
    let mut at = digest_size(edition);
    let mut objects = 0;
    let mut tombstones = 0;
    loop {
        match next(edition, s, at) {
            Next::Entry(header) => {
                if header.tombstone {
                    tombstones += counted;
                    at += head;
                } else {
                    objects += note_key(
                        area,
                        cells,
                        notes,
                        header.key,
                        header.length - head + counted,
                        size,
                        slot,
                        slot * size + at,
                    );
                    at += header.length;
                }
            }
            Next::End => {
                return Sums {
                    objects,
                    tombstones,
                };
            }
            Next::Damage => {
                return Sums {
                    objects,
                    tombstones,
                };
            }
        }
    }
}

// The same in the slot's own edition, kept for the slot; nothing where it is not of the log.
fn note_part(
    into: Edition,
    area: &[u8],
    cells: &[u32],
    notes: &mut [u8],
    totals: &mut [u32],
    tombstones: &mut [u32],
    split: Split,
    slot: usize,
)
    requires notes_fit { NotesFit split area.now cells.now notes.old }
    requires slot_lt_slots { slot < split.slots }
    requires objects_counted { ObjectsCounted into area.now cells.now split slot totals.old }
    requires tombstones_counted { TombstonesCounted into area.now split slot tombstones.old }
    ensures { (notes.new ≡ note_part area.now cells.now split notes.old slot)
        × ObjectsCounted into area.now cells.now split (slot + 1) totals.new
        × TombstonesCounted into area.now split (slot + 1) tombstones.new }
{
    if !is_named(split.outside, slot) {
        return;
    }
    let edition = edition_of(cut(split.size, area, slot));
    let sums = note_slot(edition, into, area, cells, notes, split, slot);
    totals[slot] = sums.objects as u32;
    tombstones[slot] = sums.tombstones as u32;
}

// The notes and the sums of the whole log, counted in the edition of the new head.
pub fn note_all(
    into: Edition,
    area: &[u8],
    cells: &[u32],
    notes: &mut [u8],
    totals: &mut [u32],
    tombstones: &mut [u32],
    split: Split,
)
    requires notes_fit { NotesFit split area.now cells.now notes.old }
    requires objects_counted { ObjectsCounted into area.now cells.now split 0 totals.old }
    requires tombstones_counted { TombstonesCounted into area.now split 0 tombstones.old }
    ensures { (notes.new ≡ note_all area.now cells.now split notes.old)
        × ObjectsCounted into area.now cells.now split split.slots totals.new
        × TombstonesCounted into area.now split split.slots tombstones.new }
{
    for i in 0..split.slots {
        note_part(into, area, cells, notes, totals, tombstones, split, i);
    }
}
