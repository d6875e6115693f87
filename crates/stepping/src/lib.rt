// The step: one store of the pending operation, and at the last one the record and the index brought up to date.
#![tactic(auto)]

ghost use Rattle.model.specs.Promises.{StepPromise};
ghost use Rattle.stepping.specs.Tested.{StepTested};

use finish::{advance, refused};
use record::range::fits_lent;
use record::{Record, Refusal, Stepped};
use telling::tell::store_of;

pub mod finish;

// One step of the pending operation. It makes one store, by the one assignment below; for the rest the area is only read, and
// the work buffer is left as it is. It answers the stores left, and at the last one the version, 0 for a cleaning. Refused
// with 4, 3 or 6, in this order, it changes nothing, but for one case that no genuine store meets: the last step may find
// behind its store that the new entry cannot be read or that the index is full, and answers 4. All that the record, its pending
// operation and the lent lengths tell is tested before the store.
pub fn step(rec: Record, area: &mut [u8], index: &mut [u32], work: &[u8]) -> Stepped
    ensures { StepPromise rec.edition rec area.old area.new index.old index.new work.now result
        × StepTested rec.edition rec area.old area.new index.old index.new work.now result }
{
    if !fits_lent(rec, area.len(), index.len()) {
        return refused(rec, Refusal::BadRecord);
    }
    match store_of(rec, area, work) {
        Err(cause) => refused(rec, cause),
        Ok(next) => {
            area[next.place as usize] = next.byte;
            advance(rec, area, index)
        }
    }
}
