// The next store told (for a medium that is no memory): what a step would store, and where. Nothing here writes.
ghost use Rattle.std.specs.Prelude.{◌<◌, ◌≡◌, true, length};
ghost use Rattle.record.specs.Range.{fits_lent};
ghost use Rattle.model.specs.Promises.{TellPromise};
ghost use Rattle.telling.specs.Told.{told_by};
ghost use Rattle.telling.specs.Places.{byte_from, PlaceTold};

use crate::NextPlace;
use crate::agree::aim_of;
use crate::next::next_place;
use record::range::fits_lent;
use record::{Answered, Foretold, Record, Refusal, ToldStore};

// The place of the store that the next step makes and whence its byte comes, of a record that has passed the tests of range and lengths:
// refused with 3 or 6, and with 4 where the pending operation does not agree with the record. Its aim is found before 3 is tested, so
// that the compiler joins it with what takes the operation out of its words.
pub fn place_of(rec: Record, area: &[u8], work: usize) -> Result<NextPlace<u32>, Refusal>
    requires { fits_lent rec.edition rec (length area.now) rec.cells ≡ true }
    ensures { PlaceTold rec.edition rec area.now work result }
{
    let aim = aim_of(rec);
    let to = aim.to;
    if work < rec.size as usize {
        return Err(Refusal::WorkShort);
    }
    if to.left == 0 {
        return Err(Refusal::NonePending);
    }
    if !aim.agreed {
        return Err(Refusal::BadRecord);
    }
    let Some(next) = next_place(rec.size, to, area.len(), work) else {
        return Err(Refusal::BadRecord);
    };
    Ok(NextPlace {
        place: next.place as u32,
        from: next.from as u32,
        copied: next.copied,
    })
}

// The byte of a store, which stands at an offset of the work buffer or is 0.
pub fn byte_from(work: &[u8], from: u32, copied: bool) -> u8
    requires { copied ≡ true → from < length work.now }
    ensures { result ≡ byte_from work.now from copied }
{
    if copied {
        return work[from as usize];
    }
    0
}

// The store that the next step makes, with its byte.
pub fn store_of(rec: Record, area: &[u8], work: &[u8]) -> Result<ToldStore, Refusal>
    requires { fits_lent rec.edition rec (length area.now) rec.cells ≡ true }
    ensures { result ≡ (told_by rec.edition rec area.now work.now).answer }
{
    let next = place_of(rec, area, work.len())?;
    let byte = byte_from(work, next.from, next.copied);
    Ok(ToldStore {
        place: next.place,
        byte,
    })
}

// Place and byte of the store that the next step makes, by the tests and the function that the step itself goes by. Refused with
// 4, 3 or 6, in this order; no index is lent, so that of the lent lengths 4 looks at the area's alone.
pub fn tell(rec: Record, area: &[u8], work: &[u8]) -> Foretold
    ensures { (result ≡ told_by rec.edition rec area.now work.now)
        × TellPromise rec.edition rec area.now work.now result }
{
    if !fits_lent(rec, area.len(), rec.cells as usize) {
        return Answered {
            answer: Err(Refusal::BadRecord),
            rec,
        };
    }
    let answer = store_of(rec, area, work);
    Answered { answer, rec }
}
