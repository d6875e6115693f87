// One walk over the log outside the victims: the cells of the keys of its objects are marked, where a filter has the key. A
// tombstone among the victims is kept if the cell of its key is.
ghost use Rattle.std.specs.Prelude.{◌<◌, ◌≡◌, length};
ghost use Rattle.index.specs.Search.{search_for};
ghost use Rattle.cleaning.specs.Entries.{SplitFits};
ghost use Rattle.cleaning.specs.Marks.{mark_found};
ghost use Rattle.cleaning.specs.Walks.{walk_slot, walk_part};
ghost use Rattle.cleaning.specs.Filter.{sift_entry, sift_outside, sift_needed};

use crate::Split;
use crate::by_kind::next;
use crate::filter::has;
use crate::marks::mark;
use crate::noted::note_victims;
use crate::tombstones::any_tombstone;
use drive_log::slots::is_named;
use index::Found;
use index::search::search;
use segment::area::cut;
use segment::layout::digest_size;
use segment::reader::edition_of;
use segment::{Edition, Header, Key, Next};

// Marks the cell of a key.
fn mark_key(area: &[u8], cells: &[u32], marks: &mut [u32], key: Key)
    requires { length marks.old ≡ 128 }
    ensures { marks.new ≡ mark_found marks.old (search_for area.now cells.now key) }
{
    match search(area, cells, key) {
        Found::At(i) => mark(marks, i),
        Found::Free(_) => {}
        Found::Full => {}
    }
}

// Marks the cell of an object's key where the filter has the key: most keys are not searched for.
fn sift_entry(area: &[u8], cells: &[u32], filter: &[u32], marks: &mut [u32], header: Header)
    requires { (length filter.now ≡ 128) × (length marks.old ≡ 128) }
    ensures { marks.new ≡ sift_entry area.now cells.now filter.now marks.old header }
{
    if header.tombstone {
        return;
    }
    if !has(filter, header.key) {
        return;
    }
    mark_key(area, cells, marks, header.key);
}

// Marks the cells of the keys of the objects of a slot, read in an edition. Damage ends a segment too.
fn mark_slot(
    edition: Edition,
    area: &[u8],
    cells: &[u32],
    filter: &[u32],
    marks: &mut [u32],
    split: Split,
    slot: usize,
)
    requires split_fits { SplitFits split area.now marks.old × (length filter.now ≡ 128) }
    requires slot_lt_slots { slot < split.slots }
    ensures { marks.new
        ≡ walk_slot edition (sift_entry area.now cells.now filter.now) area.now
        split.size marks.old slot }
{
    let s = cut(split.size, area, slot);
    let mut at = digest_size(edition);
    loop {
        match next(edition, s, at) {
            Next::Entry(header) => {
                sift_entry(area, cells, filter, marks, header);
                at += header.length;
            }
            Next::End => {
                return;
            }
            Next::Damage => {
                return;
            }
        }
    }
}

// The same in the slot's own edition, nothing where it is not outside the victims.
fn mark_part(
    area: &[u8],
    cells: &[u32],
    filter: &[u32],
    marks: &mut [u32],
    split: Split,
    slot: usize,
)
    requires split_fits { SplitFits split area.now marks.old × (length filter.now ≡ 128) }
    requires slot_lt_slots { slot < split.slots }
    ensures { marks.new
        ≡ walk_part (sift_entry area.now cells.now filter.now) area.now
        split.size split.outside marks.old slot }
{
    if !is_named(split.outside, slot) {
        return;
    }
    let edition = edition_of(cut(split.size, area, slot));
    mark_slot(edition, area, cells, filter, marks, split, slot);
}

// As many cells as an index can have (01: M up to 4,096).
const MOST_CELLS: usize = 4096;

// Marks the cells of the keys of all objects outside the victims, where the filter has the key. In no cells or too many a search
// finds nothing: asked for before the walk, it is not asked for again in each turn.
pub fn mark_outside(area: &[u8], cells: &[u32], filter: &[u32], marks: &mut [u32], split: Split)
    requires { SplitFits split area.now marks.old × (length filter.now ≡ 128) }
    ensures { marks.new ≡ sift_outside area.now cells.now filter.now split marks.old }
{
    if cells.is_empty() {
        return;
    }
    if MOST_CELLS < cells.len() {
        return;
    }
    for i in 0..split.slots {
        mark_part(area, cells, filter, marks, split, i);
    }
}

// The same by the keys of the victims' tombstones. Nothing where no slot is outside the victims, as no cell would be marked, nor
// where no victim holds a tombstone, as no mark is looked at then.
pub fn mark_needed(area: &[u8], cells: &[u32], marks: &mut [u32], split: Split)
    requires { SplitFits split area.now marks.old }
    ensures { marks.new ≡ sift_needed area.now cells.now split marks.old }
{
    if split.outside == 0 {
        return;
    }
    if !any_tombstone(area, split) {
        return;
    }
    let mut filter = [0u32; 128];
    note_victims(area, &mut filter, split);
    mark_outside(area, cells, &filter, marks, split);
}
