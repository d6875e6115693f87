// The keys of the victims' tombstones, put into a filter. An object of any other key keeps no tombstone.
ghost use Rattle.std.specs.Prelude.{◌≤◌, ◌<◌, ◌≡◌, length};
ghost use Rattle.segment.specs.Layout.{digest_size};
ghost use Rattle.index.specs.Build.{entries_at};
ghost use Rattle.cleaning.specs.Entries.{SplitFits};
ghost use Rattle.cleaning.specs.Walks.{walk_items, walk_part, walk_slot};
ghost use Rattle.cleaning.specs.Filter.{edition_as, note_entry, note_victims};

use crate::Split;
use crate::filter::put;
use drive_log::slots::is_named;
use segment::area::cut;
use segment::entries::{behind, next};
use segment::layout::digest_size;
use segment::reader::edition_of;
use segment::{Edition, Header, Next};

// The key of a tombstone.
fn note_entry(filter: &mut [u32], header: Header)
    requires { length filter.old ≡ 128 }
    ensures { filter.new ≡ note_entry filter.old header }
{
    if !header.tombstone {
        return;
    }
    put(filter, header.key);
}

// Those of a segment of one edition. Damage ends a segment too. A const parameter picks the edition: the walk is made once for each,
// and no turn asks for it.
fn note_as<const SECOND: bool>(s: &[u8], filter: &mut [u32])
    requires { (length s.now ≤ 2048) × (length filter.old ≡ 128) }
    ensures { filter.new ≡ walk_items (edition_as SECOND) note_entry filter.old (entries_at (edition_as SECOND) s.now (digest_size (edition_as SECOND))) }
{
    let edition = if SECOND {
        Edition::Second
    } else {
        Edition::First
    };
    let mut at = digest_size(edition);
    loop {
        match next(edition, s, at) {
            Next::Entry(header) => {
                note_entry(filter, header);
                at = behind(edition, at, header);
            }
            Next::End => {
                return;
            }
            Next::Damage => {
                return;
            }
        }
    }
}

// Those of a slot, read in an edition.
fn note_slot(edition: Edition, area: &[u8], filter: &mut [u32], split: Split, slot: usize)
    requires split_fits { SplitFits split area.now filter.old }
    requires slot_lt_slots { slot < split.slots }
    ensures { filter.new ≡ walk_slot edition note_entry area.now split.size filter.old slot }
{
    let s = cut(split.size, area, slot);
    match edition {
        Edition::First => note_as::<false>(s, filter),
        Edition::Second => note_as::<true>(s, filter),
    }
}

// The same in the slot's own edition, nothing where it is no victim.
fn note_part(area: &[u8], filter: &mut [u32], split: Split, slot: usize)
    requires split_fits { SplitFits split area.now filter.old }
    requires slot_lt_slots { slot < split.slots }
    ensures { filter.new ≡ walk_part note_entry area.now split.size split.victims filter.old slot }
{
    if !is_named(split.victims, slot) {
        return;
    }
    let edition = edition_of(cut(split.size, area, slot));
    note_slot(edition, area, filter, split, slot);
}

// Those of all victims.
pub fn note_victims(area: &[u8], filter: &mut [u32], split: Split)
    requires { SplitFits split area.now filter.old }
    ensures { filter.new ≡ note_victims area.now split filter.old }
{
    for i in 0..split.slots {
        note_part(area, filter, split, i);
    }
}
