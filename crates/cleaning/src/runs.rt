// What is kept of a slot of the new head's own edition, copied to the work buffer: chosen entries that stand one behind the other are one
// stretch of bytes.
ghost use Rattle.std.specs.Prelude.{◌+◌, ◌≤◌, ◌<◌, length};
ghost use Rattle.segment.specs.Copied.{Copied};
ghost use Rattle.model.specs.Log.{segment_of};
ghost use Rattle.cleaning.specs.Chosen.{ChosenFits, chosen_slot};
ghost use Rattle.cleaning.specs.Runs.{Run};

use crate::Split;
use crate::chosen::is_chosen;
use segment::area::cut;
use segment::entries::{behind, next};
use segment::layout::digest_size;
use segment::writer::copy_into;
use segment::{Edition, Next};

// The offset behind the chosen entries that stand one behind the other from an offset on. That it goes as far as it can is for speed
// alone: a shorter run copies the same bytes.
fn run_behind(
    edition: Edition,
    area: &[u8],
    chosen: &[u32],
    split: Split,
    slot: usize,
    from: usize,
) -> usize
    requires chosen_fits { ChosenFits split area.now chosen.now }
    requires slot_lt_slots { slot < split.slots }
    requires from_le_size { from ≤ split.size }
    ensures { Run edition area.now chosen.now split.size slot (segment_of area.now split.size slot) from result }
{
    let size = split.size;
    let s = cut(size, area, slot);
    let mut at = from;
    loop {
        match next(edition, s, at) {
            Next::Entry(header) => {
                if !is_chosen(chosen, slot * size + at) {
                    return at;
                }
                at = behind(edition, at, header);
            }
            Next::End => {
                return at;
            }
            Next::Damage => {
                return at;
            }
        }
    }
}

// What is chosen of a slot, read in the edition of the new head. Damage, which no log of ours has, ends a segment too.
pub fn copy_runs(
    edition: Edition,
    area: &[u8],
    chosen: &[u32],
    split: Split,
    slot: usize,
    work: &mut [u8],
    from: usize,
) -> usize
    requires chosen_fits { ChosenFits split area.now chosen.now }
    requires slot_lt_slots { slot < split.slots }
    requires slot_in_bounds { from + length (chosen_slot edition edition area.now chosen.now split.size slot) ≤ length work.old }
    ensures { Copied (chosen_slot edition edition area.now chosen.now split.size slot) work.old from work.new result }
{
    let size = split.size;
    let s = cut(size, area, slot);
    let start = slot * size;
    let mut at = digest_size(edition);
    let mut to = from;
    loop {
        match next(edition, s, at) {
            Next::Entry(header) => {
                let first = at;
                at = behind(edition, first, header);
                if is_chosen(chosen, start + first) {
                    at = run_behind(edition, area, chosen, split, slot, at);
                    copy_into(work, to, &area[start + first..start + at]);
                    to += at - first;
                }
            }
            Next::End => {
                return to;
            }
            Next::Damage => {
                return to;
            }
        }
    }
}
