// The switch of a live store to the second edition (02, R-13): from then on every new head is of that edition.
#![tactic(auto)]

ghost use Rattle.model.specs.Switching.{SwitchPromise};

use record::range::in_range;
use record::{Answered, Pending, Record, Refusal, Switching, switched_on};

pub fn switch(rec: Record) -> Switching
    ensures { SwitchPromise rec.edition rec result }
{
    if !in_range(rec) {
        return Answered {
            answer: Err(Refusal::BadRecord),
            rec,
        };
    }
    let pending = rec.pending;
    if let Pending::Idle = pending {
        return Answered {
            answer: Ok(()),
            rec: switched_on(rec),
        };
    }
    Answered {
        answer: Err(Refusal::Busy),
        rec,
    }
}
