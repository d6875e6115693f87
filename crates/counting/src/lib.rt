// The present bytes of the slots at a commit (02, R-5): single numbers change, and nothing is counted anew over the log.
#![tactic(auto)]

ghost use Rattle.std.specs.Prelude.{◌+◌, ◌*◌, ◌-◌, ◌≤◌, ◌<◌, ◌≡◌, length, get_or};
ghost use Rattle.segment.specs.Choice.{pick};
ghost use Rattle.slot_map.specs.Bit.{named};
ghost use Rattle.model.specs.Counts.{fewer_bytes, more_bytes, without_victims};
ghost use Rattle.counting.specs.Counting.{lost_at, header_bytes, segment_bytes, renewed_at};

use segment::area::{cut, object_length};
use segment::entries::next;
use segment::layout::digest_size;
use segment::reader::edition_of;
use segment::{Edition, Header, Next};
use slot_map::has_slot;

// a less b, and 0 where b is more.
fn less(a: u32, b: usize) -> u32
    ensures { result ≡ a - b }
{
    (a as usize).saturating_sub(b) as u32
}

// A slot has fewer present bytes.
pub fn fewer(counts: &mut [u32], slot: usize, bytes: usize)
    ensures { counts.new ≡ fewer_bytes slot bytes counts.old }
{
    if slot < counts.len() {
        counts[slot] = less(counts[slot], bytes);
    }
}

// A slot has more present bytes.
pub fn more(counts: &mut [u32], slot: usize, bytes: usize)
    requires { get_or counts.old slot 0 + bytes < 4294967296 }
    ensures { counts.new ≡ more_bytes slot bytes counts.old }
{
    if slot < counts.len() {
        counts[slot] = counts[slot] + bytes as u32;
    }
}

// The object at a place counts no longer.
pub fn lost_at(counts: &mut [u32], size: usize, area: &[u8], place: usize)
    requires { 0 < size }
    ensures { counts.new ≡ lost_at size area.now place counts.old }
{
    fewer(counts, place / size, object_length(area, place));
}

// The bytes of an object, 0 for a tombstone.
fn object_bytes(header: Header) -> usize
    ensures { result ≡ header_bytes header }
{
    if header.tombstone {
        return 0;
    }
    header.length
}

// The bytes of the objects of a segment, read in an edition.
fn bytes_in(edition: Edition, s: &[u8]) -> usize
    requires { length s.now ≤ 2048 }
    ensures { (result ≡ segment_bytes edition s.now) × (result ≤ 4096) }
{
    let mut at = digest_size(edition);
    let mut sum = 0;
    loop {
        match next(edition, s, at) {
            Next::Entry(header) => {
                sum += object_bytes(header);
                at += header.length;
            }
            Next::End => {
                return sum;
            }
            Next::Damage => {
                return sum;
            }
        }
    }
}

// A slot's number, 0 if it is a victim.
fn unless_victim(victims: u32, slot: u32, bytes: u32) -> u32
    requires { slot < 32 }
    ensures { result ≡ pick (named victims slot) 0 bytes }
{
    if has_slot(victims, slot) {
        return 0;
    }
    bytes
}

// The victims have no present bytes.
fn clear(counts: &mut [u32], victims: u32)
    requires { length counts.old ≤ 32 }
    ensures { counts.new ≡ without_victims victims 0 counts.old }
{
    for (i, count) in counts.iter_mut().enumerate() {
        *count = unless_victim(victims, i as u32, *count);
    }
}

// A new head in a slot has taken over what it holds, and the victims hold nothing.
pub fn renew(counts: &mut [u32], size: usize, area: &[u8], slot: usize, victims: u32)
    requires { (length counts.old ≡ 32)
        × (slot < 32)
        × (size ≤ 2048)
        × (slot * size + size ≤ length area.now) }
    ensures { counts.new ≡ renewed_at size area.now slot victims counts.old }
{
    clear(counts, victims);
    let s = cut(size, area, slot);
    let bytes = bytes_in(edition_of(s), s);
    counts[slot] = bytes as u32;
}
