// The suspects of the search for equal versions: those whose bit in the filter was set already. One walk over the log looks at all
// suspects: each is the version of an entry, so two entries share one exactly if more entries than suspects have one. They are
// looked at when the table is full, so that there is one walk for every 192 entries at most, and at the end.
ghost use Rattle.std.specs.Prelude.{◌≤◌, ◌≡◌, true, ltb};
ghost use Rattle.slot_map.specs.Bit.{named};
ghost use Rattle.model.specs.Log.{views_of, log_of};
ghost use Rattle.laws.specs.Versions.{count};
ghost use Rattle.drive_log.specs.Shape.{Shape};
ghost use Rattle.drive_log.specs.Tables.{occupied, Sorted};
ghost use Rattle.drive_log.specs.Marks.{Marked};
ghost use Rattle.drive_log.specs.Suspects.{hits, Suspects, Suspecting};

use crate::hits::count_in;
use crate::marks::mark_all;
use crate::slots::is_named;
use crate::table::{VACANT, clear, insert, occupied, search, stands_at};
use segment::Version;
use segment::area::cut;
use segment::reader::edition_of;

// How many entries of the log have a suspect's version.
fn count(n: usize, s: usize, area: &[u8], map: u32, marks: &[u32], table: &[u64]) -> usize
    requires shape { Shape n s area.now }
    requires sorted { Sorted table.now }
    requires marked { Marked marks.now table.now }
    ensures { result ≡ hits table.now (log_of (views_of area.now s) (named map) n) }
{
    let mut total = 0;
    for slot in 0..n {
        if !is_named(map, slot) {
            continue;
        }
        let part = cut(s, area, slot);
        total += count_in(edition_of(part), part, marks, table);
    }
    total
}

// Whether more entries of the log than suspects have a suspect's version.
pub fn suspect_shared(n: usize, s: usize, area: &[u8], map: u32, table: &[u64]) -> bool
    requires shape { Shape n s area.now }
    requires suspects { Suspects (log_of (views_of area.now s) (named map) n) table.now }
    ensures { result ≡ ltb (occupied table.now) (hits table.now (log_of (views_of area.now s) (named map) n)) }
{
    let suspects = occupied(table);
    if suspects == 0 {
        return false;
    }
    let mut marks = [0u32; 64];
    mark_all(&mut marks, table);
    suspects < count(n, s, area, map, &marks, table)
}

// Puts the version of an entry among the suspects, and answers whether a version was found to be shared: where the table is full,
// the suspects are looked at and let go first. What is free: which of those that no other entry shares are let go.
pub fn suspect(
    n: usize,
    s: usize,
    area: &[u8],
    map: u32,
    table: &mut [u64],
    version: Version,
) -> bool
    requires shape { Shape n s area.now }
    requires suspects { Suspects (log_of (views_of area.now s) (named map) n) table.old }
    requires bound { 1 ≤ count version.0 (log_of (views_of area.now s) (named map) n) }
    ensures { Suspecting (log_of (views_of area.now s) (named map) n) table.old version.0 true result table.new }
{
    let at = search(table, version);
    if stands_at(table, version, at) {
        return false;
    }
    if table[191] == VACANT {
        insert(table, version, at);
        return false;
    }
    if suspect_shared(n, s, area, map, table) {
        return true;
    }
    clear(table);
    insert(table, version, 0);
    false
}
