// The step for a firmware that keeps its record in place. `step_kept` takes a reference to a record, and `step_held` lends one: both are thin
// over the by-value step, which does all the work.
#![tactic(auto)]

ghost use Rattle.model.specs.Promises.{StepPromise};
ghost use Rattle.stepping.specs.Tested.{StepTested};

use record::{Answered, Progress, Record, Refusal, Stepped};
use stepping::step;

// One step of the pending operation, as `step` makes it; the record behind `rec` becomes the one that `step` hands back.
pub fn step_kept(
    rec: &mut Record,
    area: &mut [u8],
    index: &mut [u32],
    work: &[u8],
) -> Result<Progress, Refusal>
    ensures { StepPromise rec.old.edition rec.old area.old area.new index.old index.new work.now
        (record { answer = result; rec = rec.new })
        × StepTested rec.old.edition rec.old area.old area.new index.old index.new work.now
        (record { answer = result; rec = rec.new }) }
{
    let before = *rec;
    let stepped = step(before, area, index, work);
    *rec = stepped.rec;
    stepped.answer
}

// The same with plain parameters: `step_kept` changes the record in place, in a local.
pub fn step_held(rec: Record, area: &mut [u8], index: &mut [u32], work: &[u8]) -> Stepped
    ensures { StepPromise rec.edition rec area.old area.new index.old index.new work.now result
        × StepTested rec.edition rec area.old area.new index.old index.new work.now result }
{
    let mut kept = rec;
    let answer = step_kept(&mut kept, area, index, work);
    Answered { answer, rec: kept }
}
