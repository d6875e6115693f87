// The head of an area, and what causes 17, 25 and 28 ask of the digests. A slot has room for the longer digest, the second edition's.
ghost use Rattle.std.specs.Prelude.{◌≤◌, ◌≡◌, ltb, length};
ghost use Rattle.segment.specs.Layout.{edition2, same_layout, digest_size};
ghost use Rattle.slot_map.specs.Bit.{named};
ghost use Rattle.model.specs.Log.{views_of, head_of, newer, digest_in};
ghost use Rattle.model.specs.Recovery.{has_number, sharing, names_no_digest, other_edition, later_edition};
ghost use Rattle.drive_log.specs.Shape.{Shape};
ghost use Rattle.drive_log.specs.Heads.{as_option, told, untold};

use crate::FoundHead;
use crate::slots::is_named;
use segment::area::cut;
use segment::reader::{digest, edition_of, is_digest};
use segment::{Digest, DigestNumber, Edition};

// The digest that a slot's bytes have, if they have one.
fn digest_in(part: &[u8]) -> Option<Digest>
    requires { digest_size edition2 ≤ length part.now }
    ensures { result ≡ as_option (digest_in part.now) }
{
    if !is_digest(part) {
        return None;
    }
    Some(digest(edition_of(part), part))
}

// The later of the newest digest so far and that of a slot whose bytes are `part`.
fn later(best: Option<FoundHead>, slot: usize, part: &[u8]) -> Option<FoundHead>
    requires { digest_size edition2 ≤ length part.now }
    ensures { result ≡ told (newer (untold best) slot (digest_in part.now)) }
{
    let Some(found) = digest_in(part) else {
        return best;
    };
    match best {
        None => Some(FoundHead {
            slot,
            digest: found,
        }),
        Some(top) => {
            if top.digest.number < found.number {
                return Some(FoundHead {
                    slot,
                    digest: found,
                });
            }
            best
        }
    }
}

// The slot with the highest digest number.
pub fn find_head(n: usize, s: usize, area: &[u8]) -> Option<FoundHead>
    requires { Shape n s area.now }
    ensures { result ≡ told (head_of (views_of area.now s) n) }
{
    let mut best = None;
    for slot in 0..n {
        best = later(best, slot, cut(s, area, slot));
    }
    best
}

// 1 where a slot's digest has that number, else 0.
fn has_number(part: &[u8], number: DigestNumber) -> usize
    requires { digest_size edition2 ≤ length part.now }
    ensures { result ≡ has_number (digest_in part.now) number.0 }
{
    match digest_in(part) {
        Some(found) => usize::from(found.number == number),
        None => 0,
    }
}

// Whether more than one slot has a digest of that number.
pub fn shared_number(n: usize, s: usize, area: &[u8], number: DigestNumber) -> bool
    requires { Shape n s area.now }
    ensures { result ≡ ltb 1 (sharing (views_of area.now s) number.0 n) }
{
    let mut count = 0;
    for slot in 0..n {
        count += has_number(cut(s, area, slot), number);
    }
    1 < count
}

// Whether the map names a slot that has no digest.
pub fn names_no_digest(n: usize, s: usize, area: &[u8], map: u32) -> bool
    requires { Shape n s area.now }
    ensures { result ≡ names_no_digest (views_of area.now s) (named map) n }
{
    for slot in 0..n {
        if !is_named(map, slot) {
            continue;
        }
        if !is_digest(cut(s, area, slot)) {
            return true;
        }
    }
    false
}

// Whether two editions are one.
pub fn same_edition(a: Edition, b: Edition) -> bool
    ensures { result ≡ same_layout a b }
{
    a == b
}

// Whether the map names a slot of another edition.
pub fn names_other_edition(edition: Edition, n: usize, s: usize, area: &[u8], map: u32) -> bool
    requires { Shape n s area.now }
    ensures { result ≡ other_edition edition (views_of area.now s) (named map) n }
{
    for slot in 0..n {
        if !is_named(map, slot) {
            continue;
        }
        if !same_edition(edition_of(cut(s, area, slot)), edition) {
            return true;
        }
    }
    false
}

// Whether the map names a slot of a later edition (02, R-13). None comes after the second; after the first comes any other.
pub fn names_later_edition(edition: Edition, n: usize, s: usize, area: &[u8], map: u32) -> bool
    requires { Shape n s area.now }
    ensures { result ≡ later_edition edition (views_of area.now s) (named map) n }
{
    match edition {
        Edition::First => names_other_edition(edition, n, s, area, map),
        Edition::Second => false,
    }
}
