// The reader for walks over a segment: what an entry has before its value, an object and a tombstone alike.
ghost use Rattle.std.specs.Prelude.{◌+◌, ◌<◌, ◌≡◌, true};
ghost use Rattle.segment.specs.Layout.{entry_size};
ghost use Rattle.segment.specs.Entry.{entry_at};
ghost use Rattle.segment.specs.Entries.{next_of};

use crate::layout::head_size;
use crate::reader::read;
use crate::{Edition, Header, Next, Read};

// The entry at an offset of a segment, or how the segment goes no further.
pub fn next(edition: Edition, s: &[u8], at: usize) -> Next
    ensures { result ≡ next_of edition (entry_at edition s.now at) }
{
    match read(edition, s, at) {
        Read::Object {
            key,
            version,
            length,
            ..
        } => Next::Entry(Header {
            key,
            version,
            tombstone: false,
            length,
        }),
        Read::Tombstone {
            key,
            version,
            length,
        } => Next::Entry(Header {
            key,
            version,
            tombstone: true,
            length,
        }),
        Read::End => Next::End,
        Read::Damage => Next::Damage,
    }
}

// The offset behind an entry. The tombstone's length, and those of edition 1's objects, stand in branches of their own, so that a
// processor that foresees the branch goes on to the next entry and does not wait until the length is loaded. Without the remainder
// of the sum a compiler sees that all branches are one sum and takes them away; that of a length does not stop it.
pub fn behind(edition: Edition, at: usize, header: Header) -> usize
    requires length_bound { at + header.length < 4294967296 }
    requires length_value { header.tombstone ≡ true → header.length ≡ entry_size edition 0 }
    ensures { result ≡ at + header.length }
{
    if header.tombstone {
        return at + head_size(edition);
    }
    let length = header.length;
    match length {
        131 => at + 131,
        67 => at + 67,
        35 => at + 35,
        19 => at + 19,
        _ => (at + length) % 4294967296,
    }
}
