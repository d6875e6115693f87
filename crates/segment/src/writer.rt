// What is written into a slice: an entry, a digest, and bytes as they stand elsewhere.
ghost use Rattle.std.specs.Prelude.{◌+◌, ◌≤◌, ◌≡◌, length};
ghost use Rattle.std.proofs.lemmas.List.Edits.{sets};
ghost use Rattle.word.specs.Number.{bytes_of};
ghost use Rattle.segment.specs.Layout.{entry_size, digest_size, table};
ghost use Rattle.segment.specs.Digest.{encoded_digest};
ghost use Rattle.segment.specs.Written.{encoded_head, encoded_as};

use crate::{Digest, Edition, Key, Version, layout};
use word::number::{write16, write32, write64};

// All of `src`, from an offset of `dst` on. Not by `copy_from_slice`: that calls memmove, which the firmware need not have.
pub fn copy_into(dst: &mut [u8], at: usize, src: &[u8])
    requires { at + length src.now ≤ length dst.old }
    ensures { dst.new ≡ sets dst.old at src.now }
{
    for (i, b) in src.iter().enumerate() {
        dst[at + i] = *b;
    }
}

// The bytes of a version. A version that needs more of them than the layout has loses the others.
pub fn write_version(edition: Edition, s: &mut [u8], at: usize, version: Version)
    requires { at + (table edition).width ≤ length s.old }
    ensures { s.new ≡ sets s.old at (bytes_of (table edition).width version.0) }
{
    match edition {
        Edition::First => write32(s, at, (version.0 % 4294967296) as u32),
        Edition::Second => write64(s, at, version.0),
    }
}

// The bytes of an entry before its value.
pub fn write_head(edition: Edition, s: &mut [u8], at: usize, kind: u8, key: Key, version: Version)
    requires { at + entry_size edition 0 ≤ length s.old }
    ensures { s.new ≡ sets s.old at (encoded_head edition kind key version) }
{
    s[at] = kind;
    write16(s, at + 1, key.table);
    write32(s, at + 3, key.key);
    write_version(edition, s, at + 7, version);
}

// The bytes of an entry.
pub fn write_entry(
    edition: Edition,
    s: &mut [u8],
    at: usize,
    kind: u8,
    key: Key,
    version: Version,
    value: &[u8],
)
    requires { at + entry_size edition (length value.now) ≤ length s.old }
    ensures { s.new ≡ sets s.old at (encoded_as edition kind key version value.now) }
{
    write_head(edition, s, at, kind, key, version);
    copy_into(s, at + layout::head_size(edition), value);
}

pub fn write_digest(edition: Edition, s: &mut [u8], at: usize, d: Digest)
    requires { at + digest_size edition ≤ length s.old }
    ensures { s.new ≡ sets s.old at (encoded_digest edition d) }
{
    let kind = layout::digest_kind(edition);
    let number = d.number;
    let next = d.next;
    s[at] = kind;
    write32(s, at + 1, number.0);
    write32(s, at + 5, d.map);
    write_version(edition, s, at + 9, next);
}
