// The numbers of the format (01, "Bytes of a segment"; 02, R-11) as the code has them, for each edition. What is proved here ties
// them to the layout.
// A function's goals are found with the definitions of its clause open.
#![tactic(auto, unfolding(crate::specs::Layout::table))]

ghost use Rattle.std.specs.Prelude.{◌≡◌};
ghost use Rattle.segment.specs.Layout.{other_layout, layout_of_kind, table, entry_size, digest_size, version_limit, object_kind, good_version};
ghost use Rattle.segment.specs.Choice.{or_zero};
ghost use Rattle.segment.specs.Kinds.{kind_size};

use crate::{Edition, Version};

// The kinds of the two digests.
pub const FIRST_DIGEST: u8 = 5;

pub const SECOND_DIGEST: u8 = 8;

// The highest digest number.
pub const NUMBER_LIMIT: u32 = 4294967295;

pub fn digest_kind(edition: Edition) -> u8
    ensures { result ≡ (table edition).digest_kind }
{
    match edition {
        Edition::First => FIRST_DIGEST,
        Edition::Second => SECOND_DIGEST,
    }
}

pub fn tombstone_kind(edition: Edition) -> u8
    ensures { result ≡ (table edition).tombstone_kind }
{
    match edition {
        Edition::First => 4,
        Edition::Second => 13,
    }
}

// Bytes of an entry before its value.
pub fn head_size(edition: Edition) -> usize
    ensures { result ≡ entry_size edition 0 }
{
    match edition {
        Edition::First => 11,
        Edition::Second => 15,
    }
}

// Bytes of a digest; entries start here.
pub fn digest_size(edition: Edition) -> usize
    ensures { result ≡ digest_size edition }
{
    match edition {
        Edition::First => 13,
        Edition::Second => 17,
    }
}

// The highest next version.
pub fn version_limit(edition: Edition) -> u64
    ensures { result ≡ version_limit edition }
{
    match edition {
        Edition::First => 4294967295,
        Edition::Second => 18446744073709551615,
    }
}

// The other of the two editions.
#[tactic(auto, unfolding(crate::specs::Layout::other_layout))]
pub fn other(edition: Edition) -> Edition
    ensures { result ≡ other_layout edition }
{
    match edition {
        Edition::First => Edition::Second,
        Edition::Second => Edition::First,
    }
}

// The edition that a kind is of.
#[tactic(auto, unfolding(crate::specs::Layout::layout_of_kind, crate::specs::Layout::table, crate::specs::Choice::pick))]
pub fn edition_of_kind(kind: u8) -> Edition
    ensures { result ≡ layout_of_kind kind }
{
    if kind < SECOND_DIGEST {
        return Edition::First;
    }
    Edition::Second
}

// The length of an entry of that kind, and 0 where no entry has it.
#[tactic(auto, unfolding(crate::specs::Kinds::size_or_zero, crate::specs::Layout::value_length, crate::specs::Layout::lookup, crate::specs::Layout::table, crate::specs::Choice::pick))]
pub fn kind_size(edition: Edition, kind: u8) -> usize
    ensures { result ≡ kind_size edition kind }
{
    match (edition, kind) {
        (Edition::First, 1) => 19,
        (Edition::First, 2) => 35,
        (Edition::First, 3) => 67,
        (Edition::First, 4) => 11,
        (Edition::First, 7) => 131,
        (Edition::Second, 9) => 23,
        (Edition::Second, 10) => 39,
        (Edition::Second, 11) => 71,
        (Edition::Second, 12) => 135,
        (Edition::Second, 13) => 15,
        _ => 0,
    }
}

// The kind of an object whose value is `length` bytes long, and 0 where no object's is. `kind_size` matches on the pair; here the code
// becomes longer by that, `rewrite::put_entry` is not put in line then, and a conversion takes 1.2 to 1.4 times the instructions.
#[tactic(auto, unfolding(crate::specs::Choice::or_zero, crate::specs::Layout::look_back, crate::specs::Layout::table, crate::specs::Choice::pick))]
pub fn object_kind(edition: Edition, length: usize) -> u8
    ensures { result ≡ or_zero (object_kind edition length) }
{
    match edition {
        Edition::First => match length {
            8 => 1,
            24 => 2,
            56 => 3,
            120 => 7,
            _ => 0,
        },
        Edition::Second => match length {
            8 => 9,
            24 => 10,
            56 => 11,
            120 => 12,
            _ => 0,
        },
    }
}

// Whether a version is one that an entry may have.
#[tactic(auto, unfolding(crate::specs::Layout::good_version, crate::specs::Choice::both))]
pub fn good_version(edition: Edition, version: Version) -> bool
    ensures { result ≡ good_version edition version.0 }
{
    0 < version.0 && version.0 < version_limit(edition)
}
