// The question of the slot with the fewest present bytes (02, R-5), on the record's words as they are.
ghost use Rattle.kurdavel.specs.Crossing.{FewestCrossed};

use crate::in_range;
use fullness::fewest_slot;
use words::{COUNTS, WORDS};

// The slot of the log with the fewest present bytes, by the record alone; 0 where it is refused.
pub fn kurdavel_fewest(words: &[u32], slot: &mut u32) -> u32
    ensures { FewestCrossed words.now slot.new result }
{
    *slot = 0;
    if !in_range(words) {
        return 4;
    }
    *slot = fewest_slot(words[0], words[3], words[6], &words[COUNTS..WORDS]);
    0
}
