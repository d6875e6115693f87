// Whether a victim holds a tombstone: only then it matters which objects stand outside the victims.
ghost use Rattle.std.specs.Prelude.{◌≤◌, ◌<◌, ◌≡◌, length};
ghost use Rattle.segment.specs.Layout.{digest_size};
ghost use Rattle.index.specs.Build.{entries_at};
ghost use Rattle.cleaning.specs.Entries.{SlotsFit};
ghost use Rattle.cleaning.specs.Tombstones.{tombstone_in, victim_holds, any_tombstone};

use crate::Split;
use drive_log::slots::is_named;
use segment::area::cut;
use segment::entries::{behind, next};
use segment::layout::digest_size;
use segment::reader::edition_of;
use segment::{Edition, Next};

// Whether a tombstone stands in a segment, read in an edition. Damage ends a segment too.
fn holds_tombstone(edition: Edition, s: &[u8]) -> bool
    requires { length s.now ≤ 2048 }
    ensures { result ≡ tombstone_in (entries_at edition s.now (digest_size edition)) }
{
    let mut at = digest_size(edition);
    loop {
        match next(edition, s, at) {
            Next::Entry(header) => {
                if header.tombstone {
                    return true;
                }
                at = behind(edition, at, header);
            }
            Next::End => {
                return false;
            }
            Next::Damage => {
                return false;
            }
        }
    }
}

// Whether a slot is a victim and holds a tombstone.
fn slot_holds(area: &[u8], split: Split, slot: usize) -> bool
    requires slots_fit { SlotsFit split area.now }
    requires slot_lt_slots { slot < split.slots }
    ensures { result ≡ victim_holds area.now split slot }
{
    if !is_named(split.victims, slot) {
        return false;
    }
    let s = cut(split.size, area, slot);
    holds_tombstone(edition_of(s), s)
}

// Whether one of the victims holds a tombstone.
pub fn any_tombstone(area: &[u8], split: Split) -> bool
    requires { SlotsFit split area.now }
    ensures { result ≡ any_tombstone area.now split }
{
    for i in 0..split.slots {
        if slot_holds(area, split, i) {
            return true;
        }
    }
    false
}
