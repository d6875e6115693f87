// The index rebuilt from the entries of the log, slot by slot in the order of a list.
ghost use Rattle.std.specs.Prelude.{◌+◌, ◌*◌, ◌≤◌, ◌<◌, ◌≡◌, length, replicate};
ghost use Rattle.index.specs.Insert.{counted, insert_one, insert_all};
ghost use Rattle.index.specs.Build.{in_log, slot_entries, listed_slot, listed, tally_of, Rebuilt, built};

use crate::Found;
use crate::put::{put, version_there};
use crate::search::search;
use segment::area::cut;
use segment::entries::{behind, next};
use segment::layout::digest_size;
use segment::reader::edition_of;
use segment::{Edition, Key, Next, Version};
use slot_map::has_slot;

// Every cell free.
fn clear(cells: &mut [u32])
    ensures { cells.new ≡ replicate (length cells.old) 0 }
{
    cells.fill(0);
}

// One entry more, with the number of keys so far: how many they are then, none where they are more than the index may hold. It does
// what `insert` does, and not by it: a function that is called from the steps too would not be put in line here, and a recovery takes
// a fifth longer then.
fn index_entry(
    area: &[u8],
    cells: &mut [u32],
    place: usize,
    key: Key,
    version: Version,
    keys: usize,
) -> Option<usize>
    requires { (place < 4294967295) × (keys ≤ length cells.old) }
    ensures { tally_of result cells.new
        ≡ insert_one area.now place key version.0 cells.old keys }
{
    match search(area, cells, key) {
        Found::Full => None,
        Found::Free(i) => {
            put(cells, i, place);
            if keys + 1 < cells.len() {
                return Some(keys + 1);
            }
            None
        }
        Found::At(i) => {
            let old = (cells[i] - 1) as usize;
            let there = version_there(area, old);
            if there.0 < version.0 {
                put(cells, i, place);
            }
            Some(keys)
        }
    }
}

// The entries of one slot, read in an edition. Damage, which a log that is recovered does not have, ends a segment too.
fn index_slot(
    edition: Edition,
    area: &[u8],
    cells: &mut [u32],
    slot: usize,
    size: usize,
    keys: usize,
) -> Option<usize>
    requires { (slot * size + size ≤ length area.now)
        × (slot * size + size < 4294967295)
        × (keys ≤ length cells.old) }
    ensures { tally_of result cells.new
        ≡ insert_all area.now size (slot_entries edition area.now size slot) (counted cells.old keys) }
{
    let s = cut(size, area, slot);
    let start = slot * size;
    let mut at = digest_size(edition);
    let mut keys = keys;
    loop {
        match next(edition, s, at) {
            Next::Entry(header) => {
                let place = start + at;
                let key = header.key;
                let version = header.version;
                keys = index_entry(area, cells, place, key, version, keys)?;
                at = behind(edition, at, header);
            }
            Next::End => {
                return Some(keys);
            }
            Next::Damage => {
                return Some(keys);
            }
        }
    }
}

// A byte as a slot.
fn slot_of(b: u8) -> usize
    ensures { (result ≡ b) × (result < 256) }
{
    b as usize
}

// Whether the map names the slot and the slot's segment lies within the area.
fn in_log(length: usize, size: usize, map: u32, slot: usize) -> bool
    requires { (slot < 256) × (size ≤ 65536) }
    ensures { result ≡ in_log length size map slot }
{
    if 32 <= slot {
        return false;
    }
    if !has_slot(map, slot as u32) {
        return false;
    }
    slot * size + size <= length
}

// The entries of one slot of the order list in its own edition, if it is in the log.
fn index_listed(
    area: &[u8],
    cells: &mut [u32],
    slot: usize,
    size: usize,
    map: u32,
    keys: usize,
) -> Option<usize>
    requires { (slot < 256) × (size ≤ 65536) × (keys ≤ length cells.old) }
    ensures { tally_of result cells.new
        ≡ insert_all area.now size (listed_slot area.now size map slot) (counted cells.old keys) }
{
    if !in_log(area.len(), size, map, slot) {
        return Some(keys);
    }
    let edition = edition_of(cut(size, area, slot));
    index_slot(edition, area, cells, slot, size, keys)
}

// The entries of the slots of the order list, one slot after the other, into cells that are free.
fn index_order(area: &[u8], cells: &mut [u32], order: &[u8], size: usize, map: u32) -> Option<usize>
    requires { size ≤ 65536 }
    ensures { tally_of result cells.new
        ≡ insert_all area.now size (listed area.now size map order.now) (counted cells.old 0) }
{
    let mut keys = 0;
    for slot in order {
        keys = index_listed(area, cells, slot_of(*slot), size, map, keys)?;
    }
    Some(keys)
}

// Too many keys: no cell is left filled.
fn give_up(index: &mut [u32]) -> Option<usize>
    ensures { (result ≡ None) × (index.new ≡ replicate (length index.old) 0) }
{
    clear(index);
    None
}

// The index of the log: the slots of the map in the order of the list. With too many keys every cell is left 0.
pub fn build(area: &[u8], cells: &mut [u32], order: &[u8], size: usize, map: u32) -> Option<usize>
    requires { size ≤ 65536 }
    ensures { ◌≡◌ {A = Rebuilt} (record { answer = result; cells = cells.new })
        (built area.now size map order.now (length cells.old)) }
{
    clear(cells);
    match index_order(area, cells, order, size, map) {
        Some(n) => Some(n),
        None => give_up(cells),
    }
}
