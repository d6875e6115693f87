// The digest of a new head.
ghost use Rattle.std.specs.Prelude.{◌≡◌};
ghost use Rattle.model.specs.Operations.{digest_with};
ghost use Rattle.starting.specs.NewHead.{HeadReady};

use record::Record;
use segment::{Digest, DigestNumber, Version};
use slot_map::{with_slot, without_slots};

// The digest of a new head in `slot`, with that next version. Its map drops the victims and names the slot.
pub fn new_digest(rec: Record, victims: u32, slot: u32, next: Version) -> Digest
    requires { HeadReady rec victims slot }
    ensures { result ≡ digest_with rec victims next }
{
    let number = rec.digest;
    let raised = number.0 + 1;
    Digest {
        number: DigestNumber(raised),
        map: with_slot(without_slots(rec.map, victims), slot),
        next,
    }
}
