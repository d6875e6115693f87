// How long what comes of the victim is in the edition of the new head, and whether it fits a segment.
ghost use Rattle.std.specs.Prelude.{◌+◌, ◌≤◌, ◌<◌, ◌≡◌, length};
ghost use Rattle.segment.specs.Layout.{entry_size};
ghost use Rattle.cleaning.specs.Entries.{SplitFits};
ghost use Rattle.forgetting.specs.Forgot.{dead_bytes, forgot_entry, forgot_slot, fits_segment};

use crate::Live;
use cleaning::Split;
use cleaning::kept::{is_kept, moved_length};
use drive_log::head::same_edition;
use segment::area::cut;
use segment::entries::next;
use segment::layout::{digest_size, head_size};
use segment::{Edition, Header, Next};

// The length of the tombstone, 0 where it is not needed.
fn tombstone_length(into: Edition, live: Live) -> usize
    ensures { result ≡ length (dead_bytes into live) }
{
    if !live.needed {
        return 0;
    }
    head_size(into)
}

// The length of what comes of an entry.
fn measure_entry(
    edition: Edition,
    into: Edition,
    area: &[u8],
    cells: &[u32],
    marks: &[u32],
    live: Live,
    header: Header,
    place: usize,
) -> usize
    requires marks_len { length marks.now ≡ 128 }
    requires length_in_bounds { (place + header.length ≤ length area.now) × (length area.now ≤ 65536) }
    requires place_bound { place < 65536 }
    requires edition_bound { entry_size edition 0 ≤ header.length }
    ensures { result ≡ length (forgot_entry into area.now cells.now marks.now live edition header place) }
{
    if place == live.place {
        return tombstone_length(into, live);
    }
    if !is_kept(area, cells, marks, header, place) {
        return 0;
    }
    moved_length(edition, into, header)
}

// The length of what comes of a slot, read in an edition. Damage ends a segment too.
fn measure_slot(
    edition: Edition,
    into: Edition,
    area: &[u8],
    cells: &[u32],
    marks: &[u32],
    live: Live,
    split: Split,
    slot: usize,
) -> usize
    requires split_fits { SplitFits split area.now marks.now }
    requires slot_lt_slots { slot < split.slots }
    ensures { (result ≡ length (forgot_slot edition into area.now cells.now marks.now live split.size slot))
        × (result ≤ 4096) }
{
    let size = split.size;
    let s = cut(size, area, slot);
    let mut at = digest_size(edition);
    let mut total = 0;
    loop {
        match next(edition, s, at) {
            Next::Entry(header) => {
                let place = slot * size + at;
                total += measure_entry(edition, into, area, cells, marks, live, header, place);
                at += header.length;
            }
            Next::End => {
                return total;
            }
            Next::Damage => {
                return total;
            }
        }
    }
}

// Whether what comes of a slot, read in an edition, fits a segment behind the digest of the new head (02, R-13). In the slot's own
// edition it takes no more bytes than the slot has, and is not measured.
pub fn fits_segment(
    edition: Edition,
    into: Edition,
    area: &[u8],
    cells: &[u32],
    marks: &[u32],
    live: Live,
    split: Split,
    slot: usize,
) -> bool
    requires split_fits { SplitFits split area.now marks.now }
    requires slot_lt_slots { slot < split.slots }
    ensures { result ≡ fits_segment into split.size
        (forgot_slot edition into area.now cells.now marks.now live split.size slot) }
{
    if same_edition(edition, into) {
        return true;
    }
    let length = measure_slot(edition, into, area, cells, marks, live, split, slot);
    digest_size(into) + length <= split.size
}
