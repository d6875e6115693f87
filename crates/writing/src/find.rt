// What the log holds of a key, by the index.
ghost use Rattle.std.specs.Prelude.{◌≡◌};
ghost use Rattle.writing.specs.Tests.{presence_of, presence_for};

use crate::Presence;
use index::Found;
use index::search::search;
use segment::area::entry_at;
use segment::{Key, Read};

// What an entry says of its key.
fn presence(read: Read) -> Presence
    ensures { result ≡ presence_of read }
{
    match read {
        Read::Object {
            key: _,
            version,
            kind: _,
            length: _,
        } => Presence::Object(version),
        Read::Tombstone {
            key: _,
            version: _,
            length: _,
        } => Presence::Tombstone,
        Read::End => Presence::Forbidden,
        Read::Damage => Presence::Forbidden,
    }
}

// What a key's latest entry is. An index in which the search finds no end is none that its rule allows.
pub fn find(area: &[u8], index: &[u32], key: Key) -> Presence
    ensures { result ≡ presence_for area.now index.now key }
{
    match search(area, index, key) {
        Found::Full => Presence::Forbidden,
        Found::Free(_) => Presence::Nothing,
        Found::At(i) => {
            let place = (index[i] - 1) as usize;
            presence(entry_at(area, place))
        }
    }
}
