// The segments of an area: each is handed on as its own part. An entry is read where it stands in the area.
ghost use Rattle.std.specs.Prelude.{◌+◌, ◌*◌, ◌≤◌, ◌≡◌, length};
ghost use Rattle.segment.specs.Area.{segment_of, layout_at, stands_at, object_at};

use crate::layout::edition_of_kind;
use crate::reader::read;
use crate::{Edition, Read};

// A slot's segment.
pub fn cut(size: usize, area: &[u8], slot: usize) -> &[u8]
    requires { slot * size + size ≤ length area.now }
    ensures { result.now ≡ segment_of area.now size slot }
{
    let start = slot * size;
    &area[start..start + size]
}

// The edition of the entry at a place, by its kind. Its slot's byte 0, which would tell it too, lies elsewhere in memory.
fn edition_at(area: &[u8], place: usize) -> Edition
    ensures { result ≡ layout_at area.now place }
{
    if area.len() <= place {
        return Edition::First;
    }
    edition_of_kind(area[place])
}

// What stands at a place of the area, by the edition that the kind there tells. An entry of the log is the same in its segment and
// in the area, so that a place needs no division to be read.
pub fn entry_at(area: &[u8], place: usize) -> Read
    ensures { result ≡ stands_at area.now place }
{
    read(edition_at(area, place), area, place)
}

// The whole length of the object at a place, and 0 where none stands.
#[tactic(auto, unfolding(crate::specs::Area::object_length))]
pub fn object_length(area: &[u8], place: usize) -> usize
    ensures { result ≡ object_at area.now place }
{
    match entry_at(area, place) {
        Read::Object { length, .. } => length,
        Read::Tombstone { .. } | Read::End | Read::Damage => 0,
    }
}
