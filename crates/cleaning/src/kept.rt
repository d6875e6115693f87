// What is kept of the victims' slots, and how long it is.
ghost use Rattle.std.specs.Prelude.{◌+◌, ◌*◌, ◌-◌, ◌≤◌, ◌<◌, ◌≡◌, length};
ghost use Rattle.segment.specs.Layout.{entry_size};
ghost use Rattle.cleaning.specs.Entries.{SplitFits};
ghost use Rattle.cleaning.specs.Kept.{FoundInside, cell_kept, kept_test, kept_entry, kept_slot, kept_part, kept_bytes};
ghost use Rattle.cleaning.specs.Chosen.{choose_entry, choose_slot, choose_part, choose_victims};

use crate::Split;
use crate::chosen::choose;
use crate::marks::is_marked;
use drive_log::slots::is_named;
use index::Found;
use index::search::search;
use segment::area::cut;
use segment::entries::{behind, next};
use segment::layout::{digest_size, head_size};
use segment::reader::edition_of;
use segment::{Edition, Header, Next};

// Whether a victim's entry at a place is kept, by what a search for its key found: it is its key's highest version, and a tombstone
// only where the key's cell is marked, as an object of the key stands outside the victims.
fn found_kept(cells: &[u32], marks: &[u32], header: Header, place: usize, found: Found) -> bool
    requires marks_len { length marks.now ≡ 128 }
    requires place_bound { place < 65536 }
    requires found_inside { FoundInside cells.now found }
    ensures { result ≡ cell_kept cells.now marks.now header.tombstone place found }
{
    match found {
        Found::At(i) => {
            if cells[i] as usize != place + 1 {
                return false;
            }
            if !header.tombstone {
                return true;
            }
            is_marked(marks, i)
        }
        Found::Free(_) => false,
        Found::Full => false,
    }
}

// The same with the search. The walk that measures searches by itself, for only where the search is called directly it is put in line.
pub fn is_kept(area: &[u8], cells: &[u32], marks: &[u32], header: Header, place: usize) -> bool
    requires marks_len { length marks.now ≡ 128 }
    requires place_bound { place < 65536 }
    ensures { result ≡ kept_test area.now cells.now marks.now header place }
{
    let found = search(area, cells, header.key);
    found_kept(cells, marks, header, place, found)
}

// How long an entry is in the edition of the new head: only what stands before its value takes other bytes there (02, R-13).
pub fn moved_length(edition: Edition, into: Edition, header: Header) -> usize
    requires { (entry_size edition 0 ≤ header.length) × (header.length ≤ 65536) }
    ensures { result ≡ header.length - entry_size edition 0 + entry_size into 0 }
{
    header.length - head_size(edition) + head_size(into)
}

// The length in the edition of the new head of an entry that is kept, which is then chosen; 0 of one that is not.
fn choose_kept(
    edition: Edition,
    into: Edition,
    area: &[u8],
    cells: &[u32],
    marks: &[u32],
    chosen: &mut [u32],
    header: Header,
    place: usize,
) -> usize
    requires marks_len { (length marks.now ≡ 128) × (length chosen.old ≡ 256) }
    requires length_in_bounds { (place + header.length ≤ length area.now) × (length area.now ≤ 65536) }
    requires place_bound { place < 65536 }
    requires edition_bound { entry_size edition 0 ≤ header.length }
    ensures { (result ≡ length (kept_entry into area.now cells.now marks.now edition header place))
        × (chosen.new
        ≡ choose_entry (kept_test area.now cells.now marks.now) chosen.old header place) }
{
    let found = search(area, cells, header.key);
    if !found_kept(cells, marks, header, place, found) {
        return 0;
    }
    choose(chosen, place);
    moved_length(edition, into, header)
}

// How long what is kept of a slot, read in an edition, is in that of the new head; it is chosen. Damage ends a segment too.
fn measure_slot(
    edition: Edition,
    into: Edition,
    area: &[u8],
    cells: &[u32],
    marks: &[u32],
    chosen: &mut [u32],
    split: Split,
    slot: usize,
) -> usize
    requires split_fits { SplitFits split area.now marks.now × (length chosen.old ≡ 256) }
    requires slot_lt_slots { slot < split.slots }
    ensures { (result ≡ length (kept_slot edition into area.now cells.now marks.now split.size slot))
        × (result ≤ 4096)
        × (chosen.new
        ≡ choose_slot edition (kept_test area.now cells.now marks.now) area.now
        split.size chosen.old slot) }
{
    let size = split.size;
    let s = cut(size, area, slot);
    let mut at = digest_size(edition);
    let mut total = 0;
    loop {
        match next(edition, s, at) {
            Next::Entry(header) => {
                total += choose_kept(
                    edition,
                    into,
                    area,
                    cells,
                    marks,
                    chosen,
                    header,
                    slot * size + at,
                );
                at = behind(edition, at, header);
            }
            Next::End => {
                return total;
            }
            Next::Damage => {
                return total;
            }
        }
    }
}

// The same in the slot's own edition, 0 and nothing chosen where it is no victim.
fn measure_victim(
    into: Edition,
    area: &[u8],
    cells: &[u32],
    marks: &[u32],
    chosen: &mut [u32],
    split: Split,
    slot: usize,
) -> usize
    requires split_fits { SplitFits split area.now marks.now × (length chosen.old ≡ 256) }
    requires slot_lt_slots { slot < split.slots }
    ensures { (result ≡ length (kept_part into area.now cells.now marks.now split slot))
        × (result ≤ 4096)
        × (chosen.new
        ≡ choose_part (kept_test area.now cells.now marks.now) area.now split
        chosen.old slot) }
{
    if !is_named(split.victims, slot) {
        return 0;
    }
    let edition = edition_of(cut(split.size, area, slot));
    measure_slot(edition, into, area, cells, marks, chosen, split, slot)
}

// How long all that is kept is in the edition of the new head; it is chosen.
pub fn measure(
    into: Edition,
    area: &[u8],
    cells: &[u32],
    marks: &[u32],
    chosen: &mut [u32],
    split: Split,
) -> usize
    requires { SplitFits split area.now marks.now × (length chosen.old ≡ 256) }
    ensures { (result ≡ length (kept_bytes into area.now cells.now marks.now split))
        × (result ≤ 131072)
        × (chosen.new
        ≡ choose_victims (kept_test area.now cells.now marks.now) area.now split
        chosen.old) }
{
    let mut total = 0;
    for i in 0..split.slots {
        total += measure_victim(into, area, cells, marks, chosen, split, i);
    }
    total
}
