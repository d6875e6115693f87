// What a start answers.
ghost use Rattle.std.specs.Prelude.{◌≡◌};
ghost use Rattle.starting.specs.Answer.{started_with, refused_start};

use record::{Answered, Pending, Record, Refusal, Start, with_pending};

// An operation is pending, with that many stores to come.
pub fn started(rec: Record, pending: Pending, left: u32) -> Start
    ensures { result ≡ started_with rec pending left }
{
    Answered {
        answer: Ok(left),
        rec: with_pending(rec, pending),
    }
}

// The record as it was, with the cause.
pub fn refused(rec: Record, cause: Refusal) -> Start
    ensures { result ≡ refused_start rec cause }
{
    Answered {
        answer: Err(cause),
        rec,
    }
}
