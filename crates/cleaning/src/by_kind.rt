// The reader of the walk outside the victims. It answers as that of `segment::entries` does, by a branch for each kind: there the length
// is a constant, so that a processor that foresees the branch goes on to the next entry before the kind is loaded. It is called in one
// place alone, for so long a function is put in line nowhere else.
ghost use Rattle.std.specs.Prelude.{◌≡◌};
ghost use Rattle.segment.specs.Entry.{entry_at};
ghost use Rattle.segment.specs.Entries.{next_of};
ghost use Rattle.cleaning.specs.ByKind.{KindStands};

use drive_log::head::same_edition;
use segment::layout::good_version;
use segment::reader::version_at;
use segment::{Edition, Header, Key, Next};
use word::number::{read16, read32};

// What stands at an offset of a segment of an edition, where a kind of an edition `own` does: an entry of that length, or damage.
fn next_of(
    edition: Edition,
    own: Edition,
    s: &[u8],
    at: usize,
    length: usize,
    tombstone: bool,
) -> Next
    requires { KindStands own s.now at length tombstone }
    ensures { result ≡ next_of edition (entry_at edition s.now at) }
{
    if !same_edition(edition, own) {
        return Next::Damage;
    }
    if s.len() - at < length {
        return Next::Damage;
    }
    let version = version_at(own, s, at + 7);
    if !good_version(own, version) {
        return Next::Damage;
    }
    let key = Key {
        table: read16(s, at + 1),
        key: read32(s, at + 3),
    };
    Next::Entry(Header {
        key,
        version,
        tombstone,
        length,
    })
}

// The entry at an offset of a segment, or how the segment goes no further.
pub fn next(edition: Edition, s: &[u8], at: usize) -> Next
    ensures { result ≡ next_of edition (entry_at edition s.now at) }
{
    if s.len() < at {
        return Next::Damage;
    }
    if s.len() <= at {
        return Next::End;
    }
    let kind = s[at];
    match kind {
        0 => Next::End,
        1 => next_of(edition, Edition::First, s, at, 19, false),
        2 => next_of(edition, Edition::First, s, at, 35, false),
        3 => next_of(edition, Edition::First, s, at, 67, false),
        4 => next_of(edition, Edition::First, s, at, 11, true),
        7 => next_of(edition, Edition::First, s, at, 131, false),
        9 => next_of(edition, Edition::Second, s, at, 23, false),
        10 => next_of(edition, Edition::Second, s, at, 39, false),
        11 => next_of(edition, Edition::Second, s, at, 71, false),
        12 => next_of(edition, Edition::Second, s, at, 135, false),
        13 => next_of(edition, Edition::Second, s, at, 15, true),
        _ => Next::Damage,
    }
}
