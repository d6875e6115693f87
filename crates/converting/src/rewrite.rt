// The slots of a log, written in another edition.
ghost use Rattle.std.specs.Prelude.{◌+◌, ◌*◌, ◌-◌, ◌≤◌, ◌≡◌, false, length, replicate};
ghost use Rattle.segment.specs.Copied.{Copied};
ghost use Rattle.segment.specs.Layout.{edition2, digest_size};
ghost use Rattle.slot_map.specs.Bit.{named};
ghost use Rattle.model.specs.Log.{views_of, scan, is_damaged};
ghost use Rattle.model.specs.Operations.{all_encoded};
ghost use Rattle.model.specs.Conversion.{filled_to, slot_too_long, converted_slots};
ghost use Rattle.drive_log.specs.Shape.{Shape};
ghost use Rattle.converting.specs.Parts.{entries_of, part_bytes, LogOf};

use drive_log::slots::is_named;
use segment::area::cut;
use segment::entries::next;
use segment::layout::digest_size;
use segment::reader::digest;
use segment::rewrite::put_entry;
use segment::writer::write_digest;
use segment::{Edition, Next};

// The entries of an undamaged segment. It answers the place behind what it put there.
fn put_entries(from: Edition, to: Edition, part: &[u8], target: &mut [u8], start: usize) -> usize
    requires part_value { is_damaged (scan from part.now) ≡ false }
    requires part_in_bounds { start + length (all_encoded to (entries_of from part.now)) ≤ length target.old }
    ensures { Copied (all_encoded to (entries_of from part.now)) target.old start target.new result }
{
    let mut at = digest_size(from);
    let mut place = start;
    loop {
        match next(from, part, at) {
            Next::Entry(header) => {
                place = put_entry(from, to, part, at, header, target, place);
                at += header.length;
            }
            Next::End => {
                return place;
            }
            Next::Damage => {
                return place;
            }
        }
    }
}

// The bytes between two places become 0.
fn clear(target: &mut [u8], start: usize, stop: usize)
    requires { (start ≤ stop) × (stop ≤ length target.old) }
    ensures { Copied (replicate (stop - start) 0) target.old start target.new stop }
{
    for at in start..stop {
        target[at] = 0;
    }
}

// The digest and the entries of an undamaged segment, and 0 behind them in a slot of S bytes.
fn put_slot(from: Edition, to: Edition, s: usize, part: &[u8], target: &mut [u8], start: usize)
    requires part_value { (is_damaged (scan from part.now) ≡ false) × (digest_size edition2 ≤ length part.now) }
    requires part_len_bound { length (part_bytes from to part.now) ≤ s }
    requires s_in_bounds { start + s ≤ length target.old }
    ensures { Copied (filled_to s (part_bytes from to part.now)) target.old start target.new
        (start + s) }
{
    let stop = start + s;
    write_digest(to, target, start, digest(from, part));
    let end = put_entries(from, to, part, target, start + digest_size(to));
    clear(target, end, stop);
}

// The slots of the log in another edition, and 0 in every other slot.
pub fn put_log(
    from: Edition,
    to: Edition,
    n: usize,
    s: usize,
    source: &[u8],
    map: u32,
    target: &mut [u8],
)
    requires shape { Shape n s source.now × LogOf from (views_of source.now s) (named map) n }
    requires n_value { slot_too_long to (views_of source.now s) (named map) s n ≡ false }
    requires target_len { length target.old ≡ n * s }
    ensures { target.new ≡ converted_slots to (views_of source.now s) (named map) s n }
{
    for slot in 0..n {
        let start = slot * s;
        if !is_named(map, slot) {
            clear(target, start, start + s);
            continue;
        }
        put_slot(from, to, s, cut(s, source, slot), target, start);
    }
}
