// An entry put into the index.
ghost use Rattle.std.specs.Prelude.{◌+◌, ◌<◌, ◌≡◌, length, set};
ghost use Rattle.index.specs.Search.{version_at};
ghost use Rattle.index.specs.Insert.{inserted};

use crate::search::search;
use crate::{Found, Inserted};
use segment::layout::{edition_of_kind, head_size};
use segment::reader::version_at;
use segment::{Key, Version};

// The place of an entry goes into a cell.
pub fn put(cells: &mut [u32], cell: usize, place: usize)
    requires { (cell < length cells.old) × (place < 4294967295) }
    ensures { cells.new ≡ set cells.old cell (place + 1) }
{
    cells[cell] = (place + 1) as u32;
}

// The version of the entry at a place, read at its offset and not through the entry reader, for a rebuild does this for every
// entry of a key that it has met. The entry's kind tells its edition, which saves a look at the slot's byte 0. 0 where no entry
// of that edition fits.
pub fn version_there(area: &[u8], place: usize) -> Version
    requires { place < length area.now }
    ensures { result ≡ record { 0 = version_at area.now place } }
{
    let edition = edition_of_kind(area[place]);
    if area.len() - place < head_size(edition) {
        return Version(0);
    }
    version_at(edition, area, place + 7)
}

// An entry of a key goes into the index, unless a newer one is there.
pub fn insert(area: &[u8], cells: &mut [u32], place: usize, key: Key, version: Version) -> Inserted
    requires { place < 4294967295 }
    ensures { record { answer = result; cells = cells.new }
        ≡ inserted area.now cells.old place key version.0 }
{
    match search(area, cells, key) {
        Found::Full => Inserted::Full,
        Found::Free(i) => {
            put(cells, i, place);
            Inserted::New
        }
        Found::At(i) => {
            let old = cells[i] - 1;
            let there = version_there(area, old as usize);
            if there.0 < version.0 {
                put(cells, i, place);
                return Inserted::Newer(old);
            }
            Inserted::Older
        }
    }
}
