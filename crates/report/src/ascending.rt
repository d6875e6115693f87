// Recovery with the slots in ascending order.
ghost use Rattle.std.specs.Prelude.{◌≤◌, min, length, take};
ghost use Rattle.model.specs.Recovery.{image_layout};
ghost use Rattle.model.specs.Promises.{RecoverPromise};
ghost use Rattle.report.specs.Recovered.{slots_in_order};

use record::Recovery;
use recovery::recover::recover;

// Recovery with the first N of 32 slots as the order. An N above 32 is refused before the order is looked at.
fn recover_first(n: u32, s: u32, slots: &[u8], area: &[u8], index: &mut [u32]) -> Recovery
    requires { 32 ≤ length slots.now }
    ensures { RecoverPromise (image_layout n s area.now) n s (take (min n 32) slots.now) area.now index.old index.new result }
{
    let used = n.min(32) as usize;
    recover(n, s, &slots[..used], area, index)
}

// Recovery with the slots in ascending order.
pub fn recover_area(n: u32, s: u32, area: &[u8], index: &mut [u32]) -> Recovery
    ensures { RecoverPromise (image_layout n s area.now) n s (slots_in_order n) area.now index.old index.new result }
{
    let slots =
        b"\x00\x01\x02\x03\x04\x05\x06\x07\x08\x09\x0a\x0b\x0c\x0d\x0e\x0f\x10\x11\x12\x13\x14\x15\x16\x17\x18\x19\x1a\x1b\x1c\x1d\x1e\x1f";
    recover_first(n, s, slots, area, index)
}
