// The walk over the log that keeps the newest entry of one key.
ghost use Rattle.std.specs.Prelude.{◌+◌, ◌*◌, ◌≤◌, ◌≡◌, false, length};
ghost use Rattle.std.proofs.Math.Option.{none};
ghost use Rattle.slot_map.specs.Bit.{named};
ghost use Rattle.model.specs.Log.{views_of, items_of, is_damaged, placed_in, log_of};
ghost use Rattle.laws.specs.LogLaws.{AllScanned};
ghost use Rattle.drive_log.specs.Shape.{Shape};
ghost use Rattle.drive_log.specs.Extents.{rest_of};
ghost use Rattle.scanning.specs.Seeing.{seen_with, seen_in, seen_of};
ghost use Rattle.scanning.specs.SeeingLaws.{Skipped};

use crate::Seen;
use drive_log::lengths::size_after;
use drive_log::slots::is_named;
use segment::area::cut;
use segment::entries::next;
use segment::layout::digest_size;
use segment::reader::edition_of;
use segment::{Edition, Header, Key, Next, Version};
use word::number::read32;

// What is seen after one entry more, an object or a tombstone. Versions are above 0, so any of them is above that of no entry.
fn see(seen: Seen, key: Key, header: Header, place: usize) -> Seen
    ensures { result ≡ seen_with key seen header.key header.version place }
{
    if key != header.key {
        return seen;
    }
    let version = header.version;
    if seen.version < version {
        return Seen { version, place };
    }
    seen
}

// The first entry from an offset of an undamaged segment on whose key may be a key, or the end: no more is read of one that has
// another key's last four bytes. A `while`, since a turn goes on by an entry's length.
fn skip_others(edition: Edition, part: &[u8], start: usize, key: Key) -> usize
    requires { is_damaged (rest_of edition part.now start) ≡ false }
    ensures { Skipped edition part.now key start result }
{
    let mut at = start;
    let mut last = 0;
    let mut length = 0;
    while at < part.len() {
        let kind = part[at];
        length = size_after(edition, last, length, kind);
        if length == 0 {
            return at;
        }
        if read32(part, at + 3) == key.key {
            return at;
        }
        last = kind;
        at += length;
    }
    at
}

// What is seen after the entries of an undamaged slot.
fn see_slot(s: usize, area: &[u8], slot: usize, key: Key, before: Seen) -> Seen
    requires s_in_bounds { slot * s + s ≤ length area.now }
    requires slot_value { is_damaged (views_of area.now s slot).scan ≡ false }
    ensures { result ≡ seen_in s key before (placed_in (views_of area.now s slot).layout slot (items_of (views_of area.now s slot).scan)) }
{
    let part = cut(s, area, slot);
    let start = slot * s;
    let edition = edition_of(part);
    let mut at = digest_size(edition);
    let mut seen = before;
    loop {
        at = skip_others(edition, part, at, key);
        match next(edition, part, at) {
            Next::Entry(header) => {
                seen = see(seen, key, header, start + at);
                at += header.length;
            }
            Next::End => {
                return seen;
            }
            Next::Damage => {
                return before;
            }
        }
    }
}

// The newest entry of a key in the undamaged log of a map.
pub fn newest(n: usize, s: usize, area: &[u8], map: u32, key: Key) -> Seen
    requires shape { Shape n s area.now }
    requires all_scanned { AllScanned (views_of area.now s) (named map) n }
    ensures { result ≡ seen_in s key (seen_of s none) (log_of (views_of area.now s) (named map) n) }
{
    let mut seen = Seen {
        version: Version(0),
        place: 0,
    };
    for slot in 0..n {
        if !is_named(map, slot) {
            continue;
        }
        seen = see_slot(s, area, slot, key, seen);
    }
    seen
}
