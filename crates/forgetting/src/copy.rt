// What is kept of the victim, copied to the work buffer, with the live object's place made good.
ghost use Rattle.std.specs.Prelude.{◌+◌, ◌≤◌, ◌<◌, ◌≡◌, length};
ghost use Rattle.segment.specs.Layout.{entry_size, digest_size};
ghost use Rattle.cleaning.specs.Entries.{SplitFits};
ghost use Rattle.segment.specs.Copied.{Copied};
ghost use Rattle.forgetting.specs.Forgot.{dead_bytes, forgot_entry, forgot_slot};

use crate::Live;
use cleaning::Split;
use cleaning::copy::copy_entry;
use segment::area::cut;
use segment::entries::next;
use segment::layout::{digest_size, head_size, tombstone_kind};
use segment::writer::write_head;
use segment::{Edition, Header, Next};

// The tombstone, if it is needed, in the edition of the new head, from an offset of the work buffer on. Like the others here it
// answers the offset behind what it put there.
fn put_tombstone(into: Edition, live: Live, work: &mut [u8], to: usize) -> usize
    requires { to + length (dead_bytes into live) ≤ length work.old }
    ensures { Copied (dead_bytes into live) work.old to work.new result }
{
    if !live.needed {
        return to;
    }
    let kind = tombstone_kind(into);
    write_head(into, work, to, kind, live.key, live.version);
    to + head_size(into)
}

// What comes of an entry: in the live object's place the tombstone or nothing, else the entry if it is kept.
fn put_entry(
    edition: Edition,
    into: Edition,
    area: &[u8],
    cells: &[u32],
    marks: &[u32],
    live: Live,
    header: Header,
    place: usize,
    work: &mut [u8],
    to: usize,
) -> usize
    requires marks_len { length marks.now ≡ 128 }
    requires length_in_bounds { place + header.length ≤ length area.now }
    requires place_bound { place < 65536 }
    requires edition_bound { entry_size edition 0 ≤ header.length }
    requires place_in_bounds { to + length (forgot_entry into area.now cells.now marks.now live edition header place) ≤ length work.old }
    ensures { Copied (forgot_entry into area.now cells.now marks.now live edition header place)
        work.old to work.new result }
{
    if place == live.place {
        return put_tombstone(into, live, work, to);
    }
    copy_entry(edition, into, area, cells, marks, header, place, work, to)
}

// What comes of a slot, read in an edition, behind the digest of the new head. Damage ends a segment too.
pub fn put_slot(
    edition: Edition,
    into: Edition,
    area: &[u8],
    cells: &[u32],
    marks: &[u32],
    live: Live,
    split: Split,
    slot: usize,
    work: &mut [u8],
) -> usize
    requires split_fits { SplitFits split area.now marks.now }
    requires slot_lt_slots { slot < split.slots }
    requires slot_in_bounds { digest_size into + length (forgot_slot edition into area.now cells.now marks.now live split.size slot) ≤ length work.old }
    ensures { Copied (forgot_slot edition into area.now cells.now marks.now live split.size slot)
        work.old (digest_size into) work.new result }
{
    let size = split.size;
    let s = cut(size, area, slot);
    let mut at = digest_size(edition);
    let mut to = digest_size(into);
    loop {
        match next(edition, s, at) {
            Next::Entry(header) => {
                to = put_entry(
                    edition,
                    into,
                    area,
                    cells,
                    marks,
                    live,
                    header,
                    slot * size + at,
                    work,
                    to,
                );
                at += header.length;
            }
            Next::End => {
                return to;
            }
            Next::Damage => {
                return to;
            }
        }
    }
}
