// How full the slots really are (02, R-5): the slot of the log that has the fewest present bytes.
#![tactic(auto)]

ghost use Rattle.std.specs.Prelude.{◌≤◌, ◌<◌, ◌≡◌, true, length};
ghost use Rattle.slot_map.specs.Bit.{named};
ghost use Rattle.model.specs.Fewest.{has_fewest, lowest_from, FewestPromise};
ghost use Rattle.fullness.specs.FewestLaws.{fewer};

use record::range::in_range;
use record::{Answered, Fewest, Record, Refusal};
use slot_map::has_slot;

// Slot i where the map names it and it has no more bytes than the slot held so far, which is above it.
fn fewer_of(map: u32, counts: &[u32], i: usize, held: usize) -> usize
    requires { (i < 32) × (i < length counts.now) × (held < length counts.now) }
    ensures { result ≡ fewer map counts.now i held }
{
    if !has_slot(map, i as u32) {
        return held;
    }
    if counts[held] < counts[i] {
        return held;
    }
    i
}

// The lowest of the slots with the fewest bytes. From the highest slot down, so that of two with as many the lower one stays.
pub fn fewest_slot(slots: u32, head: u32, map: u32, counts: &[u32]) -> u32
    requires { (slots ≤ 32) × (slots ≤ length counts.now) × (head < slots) × (named map head ≡ true) }
    ensures { result ≡ lowest_from (has_fewest slots map counts.now) 0 slots }
{
    let mut held = head as usize;
    for i in (0..slots as usize).rev() {
        held = fewer_of(map, counts, i, held);
    }
    held as u32
}

pub fn fewest_present(rec: Record) -> Fewest
    ensures { FewestPromise rec.edition rec result }
{
    if !in_range(rec) {
        return Answered {
            answer: Err(Refusal::BadRecord),
            rec,
        };
    }
    let counts = rec.counts;
    let slot = fewest_slot(rec.slots, rec.head, rec.map, &counts);
    Answered {
        answer: Ok(slot),
        rec,
    }
}
