// What is kept, copied to the work buffer.
ghost use Rattle.std.specs.Prelude.{◌+◌, ◌≤◌, ◌<◌, ◌≡◌, length};
ghost use Rattle.segment.specs.Layout.{entry_size};
ghost use Rattle.cleaning.specs.Kept.{moved_bytes, kept_entry};
ghost use Rattle.cleaning.specs.Chosen.{ChosenFits, chosen_entry, chosen_slot, chosen_part, chosen_bytes};
ghost use Rattle.segment.specs.Copied.{Copied};

use crate::Split;
use crate::chosen::is_chosen;
use crate::kept::is_kept;
use crate::runs::copy_runs;
use drive_log::head::same_edition;
use drive_log::slots::is_named;
use segment::area::cut;
use segment::entries::{behind, next};
use segment::layout::digest_size;
use segment::reader::edition_of;
use segment::rewrite::put_entry;
use segment::writer::copy_into;
use segment::{Edition, Header, Next};

// The bytes of an entry of a slot in the edition of the new head, from an offset of the work buffer on: as they stand where the slot
// is of that edition, and else written anew (02, R-13). Like the others here it answers the offset behind what it copied.
fn move_entry(
    edition: Edition,
    into: Edition,
    area: &[u8],
    header: Header,
    place: usize,
    work: &mut [u8],
    to: usize,
) -> usize
    requires length_in_bounds { place + header.length ≤ length area.now }
    requires edition_bound { entry_size edition 0 ≤ header.length }
    requires place_in_bounds { to + length (moved_bytes into area.now edition header place) ≤ length work.old }
    ensures { Copied (moved_bytes into area.now edition header place) work.old to work.new result }
{
    if !same_edition(edition, into) {
        return put_entry(edition, into, area, place, header, work, to);
    }
    let end = place + header.length;
    copy_into(work, to, &area[place..end]);
    to + header.length
}

// The bytes of an entry, if it is kept.
pub fn copy_entry(
    edition: Edition,
    into: Edition,
    area: &[u8],
    cells: &[u32],
    marks: &[u32],
    header: Header,
    place: usize,
    work: &mut [u8],
    to: usize,
) -> usize
    requires marks_len { length marks.now ≡ 128 }
    requires length_in_bounds { place + header.length ≤ length area.now }
    requires place_bound { place < 65536 }
    requires edition_bound { entry_size edition 0 ≤ header.length }
    requires place_in_bounds { to + length (kept_entry into area.now cells.now marks.now edition header place) ≤ length work.old }
    ensures { Copied (kept_entry into area.now cells.now marks.now edition header place)
        work.old to work.new result }
{
    if !is_kept(area, cells, marks, header, place) {
        return to;
    }
    move_entry(edition, into, area, header, place, work, to)
}

// The bytes of an entry, if it is chosen.
fn copy_chosen(
    edition: Edition,
    into: Edition,
    area: &[u8],
    chosen: &[u32],
    header: Header,
    place: usize,
    work: &mut [u8],
    to: usize,
) -> usize
    requires chosen_len { length chosen.now ≡ 256 }
    requires length_in_bounds { place + header.length ≤ length area.now }
    requires edition_bound { entry_size edition 0 ≤ header.length }
    requires place_in_bounds { to + length (chosen_entry into area.now chosen.now edition header place) ≤ length work.old }
    ensures { Copied (chosen_entry into area.now chosen.now edition header place)
        work.old to work.new result }
{
    if !is_chosen(chosen, place) {
        return to;
    }
    move_entry(edition, into, area, header, place, work, to)
}

// What is chosen of a slot, read in an edition. Damage, which no log of ours has, ends a segment too. It is called once for a slot that
// is rewritten, and never put in line: a cleaning would take 8 bytes of stack more than the header states.
#[inline(never)]
fn copy_slot(
    edition: Edition,
    into: Edition,
    area: &[u8],
    chosen: &[u32],
    split: Split,
    slot: usize,
    work: &mut [u8],
    from: usize,
) -> usize
    requires chosen_fits { ChosenFits split area.now chosen.now }
    requires slot_lt_slots { slot < split.slots }
    requires slot_in_bounds { from + length (chosen_slot edition into area.now chosen.now split.size slot) ≤ length work.old }
    ensures { Copied (chosen_slot edition into area.now chosen.now split.size slot) work.old from work.new result }
{
    let size = split.size;
    let s = cut(size, area, slot);
    let mut at = digest_size(edition);
    let mut to = from;
    loop {
        match next(edition, s, at) {
            Next::Entry(header) => {
                to = copy_chosen(
                    edition,
                    into,
                    area,
                    chosen,
                    header,
                    slot * size + at,
                    work,
                    to,
                );
                at = behind(edition, at, header);
            }
            Next::End => {
                return to;
            }
            Next::Damage => {
                return to;
            }
        }
    }
}

// The same in the slot's own edition, nothing where it is no victim. What need not be rewritten is copied run by run.
fn copy_victim(
    into: Edition,
    area: &[u8],
    chosen: &[u32],
    split: Split,
    slot: usize,
    work: &mut [u8],
    to: usize,
) -> usize
    requires chosen_fits { ChosenFits split area.now chosen.now }
    requires slot_lt_slots { slot < split.slots }
    requires slot_in_bounds { to + length (chosen_part into area.now chosen.now split slot) ≤ length work.old }
    ensures { Copied (chosen_part into area.now chosen.now split slot) work.old to work.new result }
{
    if !is_named(split.victims, slot) {
        return to;
    }
    let edition = edition_of(cut(split.size, area, slot));
    if same_edition(edition, into) {
        return copy_runs(edition, area, chosen, split, slot, work, to);
    }
    copy_slot(edition, into, area, chosen, split, slot, work, to)
}

// All that is chosen in the edition of the new head, by ascending slot and then offset.
pub fn copy_kept(
    into: Edition,
    area: &[u8],
    chosen: &[u32],
    split: Split,
    work: &mut [u8],
    from: usize,
) -> usize
    requires chosen_fits { ChosenFits split area.now chosen.now }
    requires split_in_bounds { from + length (chosen_bytes into area.now chosen.now split) ≤ length work.old }
    ensures { Copied (chosen_bytes into area.now chosen.now split) work.old from work.new result }
{
    let mut to = from;
    for i in 0..split.slots {
        to = copy_victim(into, area, chosen, split, i, work, to);
    }
    to
}
