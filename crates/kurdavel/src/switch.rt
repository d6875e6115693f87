// The switch of a live store to the second edition (02, R-13) for a firmware in C or Rust, on the record's words as they are: one of them
// changes. The answer is 0 or the refusal's number.
ghost use Rattle.kurdavel.specs.Crossing.{SwitchCrossed};

use crate::in_range;
use words::{EDITION, SWITCH, TAG};

// A head of the second edition is followed by such heads alone, and the switch of its store stays as it is.
pub fn kurdavel_switch(words: &mut [u32]) -> u32
    ensures { SwitchCrossed words.old words.new result }
{
    if !in_range(words) {
        return 4;
    }
    if words[TAG] != 0 {
        return 5;
    }
    if words[EDITION] == 1 {
        words[SWITCH] = 1;
    }
    0
}
