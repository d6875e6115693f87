// Versions that two entries of the log share (cause 19), in one pass over a store's own log and a few where versions are
// scattered. A filter of bits has one for each version modulo their number. While an entry's bit is not set, no entry
// passed has its version; where it is set, the version is a suspect. The stack has 2 KiB of filter and 1 3/4 KiB of suspects with
// their marks.
ghost use Rattle.std.specs.Prelude.{◌≤◌, ◌≡◌, true, false, length};
ghost use Rattle.slot_map.specs.Bit.{named};
ghost use Rattle.model.specs.Log.{views_of, log_of, version_shared};
ghost use Rattle.model.specs.Recovery.{log_damaged};
ghost use Rattle.laws.specs.Versions.{count};
ghost use Rattle.drive_log.specs.Shape.{Shape};
ghost use Rattle.drive_log.specs.Suspects.{Suspects, Suspecting};
ghost use Rattle.drive_log.specs.Filter.{is_marked, marked_with, Entering, SlotFiltered};

use crate::filter::mark;
use crate::slots::is_named;
use crate::suspects::{suspect, suspect_shared};
use crate::table::VACANT;
use segment::area::cut;
use segment::entries::next;
use segment::layout::digest_size;
use segment::reader::edition_of;
use segment::{Next, Version};

// Marks the version of an entry, which is a suspect if its bit was set, and answers whether a version was found to be shared.
fn pass(
    n: usize,
    s: usize,
    area: &[u8],
    map: u32,
    filter: &mut [u32],
    table: &mut [u64],
    version: Version,
) -> bool
    requires shape { Shape n s area.now }
    requires filter_len { length filter.old ≡ 512 }
    requires suspects { Suspects (log_of (views_of area.now s) (named map) n) table.old }
    requires bound { 1 ≤ count version.0 (log_of (views_of area.now s) (named map) n) }
    ensures suspecting { Suspecting (log_of (views_of area.now s) (named map) n) table.old version.0 (is_marked filter.old version.0) result table.new }
    ensures now { filter.new ≡ marked_with filter.old version.0 }
{
    if !mark(filter, version) {
        return false;
    }
    suspect(n, s, area, map, table, version)
}

// Passes the entries of a slot through the filter, and answers whether a version was found to be shared. What is free: filter and
// table where it was.
fn filter_slot(
    n: usize,
    s: usize,
    area: &[u8],
    map: u32,
    slot: usize,
    filter: &mut [u32],
    table: &mut [u64],
) -> bool
    requires shape { Shape n s area.now }
    requires entering { Entering (views_of area.now s) (named map) slot n filter.old table.old }
    ensures { SlotFiltered (views_of area.now s) (named map) slot n result filter.new table.new }
{
    let part = cut(s, area, slot);
    let edition = edition_of(part);
    let mut at = digest_size(edition);
    loop {
        match next(edition, part, at) {
            Next::Entry(header) => {
                let version = header.version;
                let length = header.length;
                if pass(n, s, area, map, filter, table, version) {
                    return true;
                }
                at += length;
            }
            Next::End => {
                return false;
            }
            Next::Damage => {
                return false;
            }
        }
    }
}

// Whether two entries of the log have one version, by a walk of their own.
fn search_shared(n: usize, s: usize, area: &[u8], map: u32) -> bool
    requires shape { Shape n s area.now }
    requires n_value { log_damaged (views_of area.now s) (named map) n ≡ false }
    ensures { result ≡ version_shared (log_of (views_of area.now s) (named map) n) }
{
    let mut filter = [0u32; 512];
    let mut table = [VACANT; 192];
    for slot in 0..n {
        if !is_named(map, slot) {
            continue;
        }
        if filter_slot(n, s, area, map, slot, &mut filter, &mut table) {
            return true;
        }
    }
    suspect_shared(n, s, area, map, &table)
}

// Whether two entries of the log have one version. Where a survey told all versions apart, none have.
pub fn version_shared(n: usize, s: usize, area: &[u8], map: u32, apart: bool) -> bool
    requires shape { Shape n s area.now }
    requires n_value { log_damaged (views_of area.now s) (named map) n ≡ false }
    requires n_value_2 { apart ≡ true → version_shared (log_of (views_of area.now s) (named map) n) ≡ false }
    ensures { result ≡ version_shared (log_of (views_of area.now s) (named map) n) }
{
    if apart {
        return false;
    }
    search_shared(n, s, area, map)
}
