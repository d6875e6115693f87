// Whether the slots of a log still fit their bytes in another edition (29).
ghost use Rattle.std.specs.Prelude.{◌≤◌, ◌≡◌, false, length};
ghost use Rattle.slot_map.specs.Bit.{named};
ghost use Rattle.model.specs.Log.{views_of, scan, is_damaged};
ghost use Rattle.model.specs.Operations.{all_encoded};
ghost use Rattle.model.specs.Conversion.{slot_too_long};
ghost use Rattle.drive_log.specs.Shape.{Shape};
ghost use Rattle.converting.specs.Parts.{entries_of, part_bytes, LogOf};

use drive_log::lengths::size_after;
use drive_log::slots::is_named;
use segment::Edition;
use segment::area::cut;
use segment::layout::{digest_size, head_size};

// Bytes of the entries of an undamaged segment in another edition: the bytes before a value are of another number. No more is read
// of an entry than its kind; what has no length is the end. A `while`, since a turn goes on by an entry's length.
fn entries_size(from: Edition, to: Edition, part: &[u8]) -> usize
    requires { (is_damaged (scan from part.now) ≡ false) × (length part.now ≤ 2048) }
    ensures { (result ≡ length (all_encoded to (entries_of from part.now))) × (result ≤ 4096) }
{
    let mut at = digest_size(from);
    let mut total = 0;
    let mut last = 0;
    let mut length = 0;
    while at < part.len() {
        let kind = part[at];
        length = size_after(from, last, length, kind);
        if length == 0 {
            return total;
        }
        last = kind;
        total += length - head_size(from) + head_size(to);
        at += length;
    }
    total
}

// Bytes of its digest and its entries.
fn part_size(from: Edition, to: Edition, part: &[u8]) -> usize
    requires { (is_damaged (scan from part.now) ≡ false) × (length part.now ≤ 2048) }
    ensures { result ≡ length (part_bytes from to part.now) }
{
    digest_size(to) + entries_size(from, to, part)
}

// Whether a slot of the log has more than S bytes in another edition. Where the other's entries are no longer, no slot has more,
// so that none is walked.
pub fn too_long(from: Edition, to: Edition, n: usize, s: usize, source: &[u8], map: u32) -> bool
    requires { Shape n s source.now × LogOf from (views_of source.now s) (named map) n }
    ensures { result ≡ slot_too_long to (views_of source.now s) (named map) s n }
{
    if head_size(to) <= head_size(from) {
        return false;
    }
    for slot in 0..n {
        if !is_named(map, slot) {
            continue;
        }
        if s < part_size(from, to, cut(s, source, slot)) {
            return true;
        }
    }
    false
}
