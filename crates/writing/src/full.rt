// The last tests of a delete whose tombstone finds no room, in the order of 02, R-13.
ghost use Rattle.std.specs.Prelude.{◌≡◌, not};
ghost use Rattle.model.specs.Causes.{first_cause};
ghost use Rattle.starting.specs.Checks.{checked};
ghost use Rattle.writing.specs.Tests.{full_tests};

use record::{Record, Refusal};
use segment::layout::NUMBER_LIMIT;

// 12 and 10, by whether what the one victim keeps fits the new head.
pub fn check_full(rec: Record, fits: bool) -> Result<(), Refusal>
    ensures { result ≡ checked (first_cause (full_tests rec (not fits))) }
{
    let number = rec.digest;
    let spent = number.0 == NUMBER_LIMIT;
    if !fits {
        return Err(Refusal::NoRoom);
    }
    if spent {
        return Err(Refusal::NumbersSpent);
    }
    Ok(())
}
