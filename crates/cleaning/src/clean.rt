// The start of a cleaning.
ghost use Rattle.std.specs.Prelude.{◌≤◌, ◌≡◌};
ghost use Rattle.std.proofs.Math.Option.{none};
ghost use Rattle.model.specs.Causes.{first_cause};
ghost use Rattle.model.specs.Operations.{Operation, clean};
ghost use Rattle.model.specs.Refused.{freely, victims_bad};
ghost use Rattle.model.specs.Promises.{StartPromise};
ghost use Rattle.starting.specs.Checks.{checked};
ghost use Rattle.cleaning.specs.Kept.{kept_bytes};
ghost use Rattle.cleaning.specs.Chosen.{chosen_bytes};
ghost use Rattle.cleaning.specs.KeptModel.{split_of};
ghost use Rattle.cleaning.specs.Begun.{CleanReady, CleanFits, Room, front_causes, kept_causes, begun_with, marked_with};

use crate::Split;
use crate::copy::copy_kept;
use crate::kept::measure;
use crate::outside::mark_needed;
use record::range::fits_lent;
use record::{Pending, Record, Refusal, Start, new_edition};
use segment::Edition;
use segment::layout::{NUMBER_LIMIT, digest_size};
use segment::writer::write_digest;
use slot_map::{is_within, next_free, without_slots};
use starting::answer::{refused, started};
use starting::checks::check_idle;
use starting::digest::new_digest;
use starting::stores::head_stores;

// Whether the victims are none, or not all of them slots of the log.
fn victims_bad(rec: Record, victims: u32) -> bool
    ensures { result ≡ victims_bad rec victims }
{
    if victims == 0 {
        return true;
    }
    !is_within(victims, rec.map)
}

// The log's slots, parted by the victims.
pub fn split_of(rec: Record, victims: u32) -> Split
    ensures { result ≡ split_of rec victims }
{
    Split {
        slots: rec.slots as usize,
        size: rec.size as usize,
        victims,
        outside: without_slots(rec.map, victims),
    }
}

// The first tests of a cleaning: 4, 3, 5, 13.
fn check_victims(
    rec: Record,
    area: usize,
    index: usize,
    work: usize,
    victims: u32,
) -> Result<(), Refusal>
    ensures { result ≡ checked (first_cause (front_causes rec.edition rec (record { area = area; index = index; work = work }) victims)) }
{
    if !fits_lent(rec, area, index) {
        return Err(Refusal::BadRecord);
    }
    check_idle(rec, work)?;
    if victims_bad(rec, victims) {
        return Err(Refusal::BadVictims);
    }
    Ok(())
}

// The last tests, for so many bytes kept in the edition of the new head: 14, 10.
fn check_kept(rec: Record, into: Edition, count: usize) -> Result<(), Refusal>
    requires { count ≤ 131072 }
    ensures { result ≡ checked (first_cause (kept_causes into rec count)) }
{
    let length = digest_size(into) + count;
    if (rec.size as usize) < length {
        return Err(Refusal::KeptTooLong);
    }
    let number = rec.digest;
    if number.0 == NUMBER_LIMIT {
        return Err(Refusal::NumbersSpent);
    }
    Ok(())
}

// The new head's bytes, in its edition, go to the work buffer, and the cleaning is pending.
fn begin(
    rec: Record,
    into: Edition,
    area: &[u8],
    chosen: &[u32],
    work: &mut [u8],
    victims: u32,
    split: Split,
) -> Start
    requires clean_ready { CleanReady rec.edition rec victims }
    requires room { Room into rec split area.now chosen.now work.old }
    ensures { record { start = result; work = work.new }
        ≡ begun_with into rec victims work.old (chosen_bytes into area.now chosen.now split) none }
{
    let next = rec.next;
    let slot = next_free(rec.slots, rec.map, rec.head);
    write_digest(into, work, 0, new_digest(rec, victims, slot, next));
    let count = copy_kept(into, area, chosen, split, work, digest_size(into));
    let left = head_stores(rec.size as usize, count) as u32;
    let length = count as u32;
    let pending = Pending::Clean {
        slot,
        victims,
        length,
        left,
    };
    started(rec, pending, left)
}

// A cleaning into a new head of an edition, once the cells are marked. What is kept is measured and chosen before a byte of the work
// buffer changes.
fn clean_marked(
    rec: Record,
    into: Edition,
    area: &[u8],
    index: &[u32],
    marks: &[u32],
    work: &mut [u8],
    victims: u32,
    split: Split,
) -> Start
    requires { CleanFits rec.edition rec victims split area.now marks.now work.old }
    ensures { record { start = result; work = work.new }
        ≡ marked_with into rec victims work.old
        (kept_bytes into area.now index.now marks.now split) }
{
    let mut chosen = [0u32; 256];
    let count = measure(into, area, index, marks, &mut chosen, split);
    match check_kept(rec, into, count) {
        Err(c) => refused(rec, c),
        Ok(()) => begin(rec, into, area, &chosen, work, victims, split),
    }
}

// A cleaning of the victims is started.
pub fn clean(rec: Record, area: &[u8], index: &[u32], work: &mut [u8], victims: u32) -> Start
    ensures { StartPromise rec.edition freely (Operation.clean victims) rec area.now index.now work.old work.new result }
{
    match check_victims(rec, area.len(), index.len(), work.len(), victims) {
        Err(c) => refused(rec, c),
        Ok(()) => {
            let split = split_of(rec, victims);
            let mut marks = [0u32; 128];
            mark_needed(area, index, &mut marks, split);
            let into = new_edition(rec);
            clean_marked(rec, into, area, index, &marks, work, victims, split)
        }
    }
}
