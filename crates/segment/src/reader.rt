// What stands in a segment: the reader of an entry, and of the digest.
ghost use Rattle.std.specs.Prelude.{◌+◌, ◌≤◌, ◌≡◌, length, take, drop};
ghost use Rattle.word.specs.Number.{number_of};
ghost use Rattle.segment.specs.Layout.{digest_size, table};
ghost use Rattle.segment.specs.Entry.{entry_at, answer};
ghost use Rattle.segment.specs.Digest.{layout_in, is_digest, digest_of};

use crate::{Digest, DigestNumber, Edition, Key, Read, Version, layout};
use word::number::{read16, read32, read64};

// The version whose bytes stand at an offset.
pub fn version_at(edition: Edition, s: &[u8], at: usize) -> Version
    requires { at + (table edition).width ≤ length s.now }
    ensures { result ≡ record { 0 = number_of (take (table edition).width (drop at s.now)) } }
{
    match edition {
        Edition::First => Version(u64::from(read32(s, at))),
        Edition::Second => Version(read64(s, at)),
    }
}

// What stands at an offset of a segment's bytes, for any offset. The segment's own end counts as the end; past it is damage.
pub fn read(edition: Edition, s: &[u8], at: usize) -> Read
    ensures { result ≡ answer edition (entry_at edition s.now at) }
{
    if s.len() < at {
        return Read::Damage;
    }
    if s.len() <= at {
        return Read::End;
    }
    let kind = s[at];
    if kind == 0 {
        return Read::End;
    }
    let length = layout::kind_size(edition, kind);
    if length == 0 {
        return Read::Damage;
    }
    if s.len() - at < length {
        return Read::Damage;
    }
    let version = version_at(edition, s, at + 7);
    if !layout::good_version(edition, version) {
        return Read::Damage;
    }
    let key = Key {
        table: read16(s, at + 1),
        key: read32(s, at + 3),
    };
    if kind == layout::tombstone_kind(edition) {
        Read::Tombstone {
            key,
            version,
            length,
        }
    } else {
        Read::Object {
            key,
            version,
            kind,
            length,
        }
    }
}

// The edition of a segment, by its byte 0: the second where it begins with the second's digest.
#[tactic(auto, unfolding(crate::specs::Digest::layout_in, crate::specs::Layout::table, crate::specs::Choice::pick))]
pub fn edition_of(s: &[u8]) -> Edition
    ensures { result ≡ layout_in s.now }
{
    if s.len() == 0 {
        return Edition::First;
    }
    if s[0] == layout::SECOND_DIGEST {
        return Edition::Second;
    }
    Edition::First
}

// Whether a segment begins with a digest, of either edition.
pub fn is_digest(s: &[u8]) -> bool
    ensures { result ≡ is_digest s.now }
{
    if s.len() == 0 {
        return false;
    }
    s[0] == layout::digest_kind(edition_of(s))
}

// The fields of the digest with which a segment begins.
pub fn digest(edition: Edition, s: &[u8]) -> Digest
    requires { digest_size edition ≤ length s.now }
    ensures { result ≡ digest_of edition s.now }
{
    Digest {
        number: DigestNumber(read32(s, 1)),
        map: read32(s, 5),
        next: version_at(edition, s, 9),
    }
}
