// Tests that every start makes, in the order of 01, "Refused calls".
ghost use Rattle.std.specs.Prelude.{◌≡◌};
ghost use Rattle.model.specs.Causes.{first_cause};
ghost use Rattle.model.specs.Refused.{is_pending};
ghost use Rattle.starting.specs.Checks.{checked, idle_causes};

use record::{Pending, Record, Refusal};

// Whether an operation is pending.
fn is_pending(pending: Pending) -> bool
    ensures { result ≡ is_pending pending }
{
    if let Pending::Idle = pending {
        return false;
    }
    true
}

// 3 and 5: the work buffer is long enough, and nothing is pending.
pub fn check_idle(rec: Record, work: usize) -> Result<(), Refusal>
    ensures { result ≡ checked (first_cause (idle_causes rec work)) }
{
    if work < rec.size as usize {
        return Err(Refusal::WorkShort);
    }
    let pending = rec.pending;
    if is_pending(pending) {
        return Err(Refusal::Busy);
    }
    Ok(())
}
