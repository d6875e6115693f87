// Marks of the suspects: 2,048 bits, of which each suspect has one, by a hash that scatters versions with one bit in the filter.
// They spare most entries the search among the suspects.
ghost use Rattle.std.specs.Prelude.{◌<◌, ◌≡◌, length};
ghost use Rattle.drive_log.specs.Tables.{holds, Sorted};
ghost use Rattle.drive_log.specs.Marks.{mark_of, has_mark, with_mark, Marked};

use crate::table::{search_steps, stands_at};
use segment::Version;

// The number of a version's mark.
fn mark_of(version: Version) -> usize
    ensures { (result ≡ mark_of version.0) × (result < 2048) }
{
    let folded = (version.0 % 4294967296 + version.0 / 4294967296) % 4294967296;
    (folded * 2654435761 % 4294967296 / 2097152) as usize
}

// Whether a version's mark is set.
fn has_mark(marks: &[u32], version: Version) -> bool
    requires { length marks.now ≡ 64 }
    ensures { result ≡ has_mark marks.now version.0 }
{
    let number = mark_of(version);
    slot_map::has_slot(marks[number / 32], (number % 32) as u32)
}

// Sets a version's mark.
fn set_mark(marks: &mut [u32], version: Version)
    requires { length marks.old ≡ 64 }
    ensures { marks.new ≡ with_mark marks.old version.0 }
{
    let number = mark_of(version);
    let word = number / 32;
    let old = marks[word];
    marks[word] = slot_map::with_slot(old, (number % 32) as u32);
}

// Sets the marks of all cells of the table.
pub fn mark_all(marks: &mut [u32], table: &[u64])
    requires marks_len { length marks.old ≡ 64 }
    requires table_len { length table.now ≡ 192 }
    ensures { Marked marks.new table.now }
{
    for cell in table {
        set_mark(marks, Version(*cell));
    }
}

// Whether a version is one of the suspects.
pub fn is_suspect(marks: &[u32], table: &[u64], version: Version) -> bool
    requires sorted { Sorted table.now }
    requires marked { Marked marks.now table.now }
    ensures { result ≡ holds table.now version.0 }
{
    if !has_mark(marks, version) {
        return false;
    }
    stands_at(table, version, search_steps(table, version))
}
