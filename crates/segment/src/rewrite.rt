// An entry, written in another edition.
ghost use Rattle.std.specs.Prelude.{◌+◌, ◌-◌, ◌≤◌, ◌≡◌, length};
ghost use Rattle.segment.specs.Copied.{Copied};
ghost use Rattle.segment.specs.Layout.{entry_size};
ghost use Rattle.segment.specs.Rewritten.{kind_as, entry_bytes};

use crate::layout::{head_size, object_kind, tombstone_kind};
use crate::writer::write_entry;
use crate::{Edition, Header};

// The kind of a tombstone, or of an object whose value is `length` bytes long.
fn kind_as(edition: Edition, tombstone: bool, length: usize) -> u8
    ensures { result ≡ kind_as edition tombstone length }
{
    if tombstone {
        return tombstone_kind(edition);
    }
    object_kind(edition, length)
}

// The entry at an offset of `part`, from a place of the target on. It answers the place behind what it put there.
pub fn put_entry(
    from: Edition,
    to: Edition,
    part: &[u8],
    at: usize,
    header: Header,
    target: &mut [u8],
    place: usize,
) -> usize
    requires length_in_bounds { at + header.length ≤ length part.now }
    requires from_bound { entry_size from 0 ≤ header.length }
    requires from_in_bounds { place + entry_size to (header.length - entry_size from 0) ≤ length target.old }
    ensures { Copied (entry_bytes from to part.now at header) target.old place target.new result }
{
    let length = header.length;
    let value = &part[at + head_size(from)..at + length];
    let kind = kind_as(to, header.tombstone, value.len());
    write_entry(to, target, place, kind, header.key, header.version, value);
    place + head_size(to) + value.len()
}
