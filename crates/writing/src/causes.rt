// The tests of a write and of a delete, in the order of 01, "Refused calls".
ghost use Rattle.std.specs.Prelude.{◌^◌, ◌≤◌, ◌<◌, ◌≡◌, true, length};
ghost use Rattle.record.specs.Range.{fits_lent};
ghost use Rattle.model.specs.Causes.{first_cause};
ghost use Rattle.model.specs.Operations.{fits_with};
ghost use Rattle.model.specs.Refused.{versions_spent, no_room, write_causes};
ghost use Rattle.starting.specs.Checks.{checked};
ghost use Rattle.writing.specs.declared.Presence.{Presence};
ghost use Rattle.writing.specs.Tests.{first_tests, version_tests, expected_tests, key_tests, number_tests, room_tests, entry_tests, present_tests, facts_of, facts_for};

use crate::Presence;
use crate::find::find;
use record::range::fits_lent;
use record::reach::holds_table;
use record::{Expected, Record, Refusal, Tables, new_edition};
use segment::layout::{NUMBER_LIMIT, head_size, object_kind, version_limit};
use segment::{Key, Version};
use starting::checks::check_idle;

// 22, 3 and 5, for a record that has passed 4's test of range and lengths: what the record, the lengths and the caller's reach tell.
fn check_first(
    rec: Record,
    area: usize,
    index: usize,
    work: usize,
    tables: Tables,
    key: Key,
) -> Result<(), Refusal>
    requires { fits_lent rec.edition rec area index ≡ true }
    ensures { result ≡ checked (first_cause (first_tests rec.edition rec (record { area = area; index = index; work = work }) tables key)) }
{
    if !holds_table(tables, key.table) {
        return Err(Refusal::OutsideTables);
    }
    check_idle(rec, work)
}

// Whether an entry of that length fits the head: it may end exactly at S, and the versions of the head's edition last (02, R-13).
pub fn fits_head(rec: Record, length: usize) -> bool
    requires { length ≤ 256 }
    ensures { result ≡ fits_with rec.edition rec length }
{
    let edition = rec.edition;
    let next = rec.next;
    rec.end as usize + length <= rec.size as usize && next.0 < version_limit(edition)
}

// Whether an entry of that length finds no room: it does not fit the head, and fewer than two slots are free.
pub fn no_room(rec: Record, length: usize) -> bool
    requires { (length ≤ 256) × (rec.map < 2 ^ rec.slots) }
    ensures { result ≡ no_room rec.edition rec length }
{
    if fits_head(rec, length) {
        return false;
    }
    slot_map::free_slots(rec.slots, rec.map) < 2
}

// 10, which only a new head brings.
pub fn check_number(rec: Record, length: usize) -> Result<(), Refusal>
    requires { length ≤ 256 }
    ensures { result ≡ checked (first_cause (number_tests rec.edition rec length)) }
{
    if fits_head(rec, length) {
        return Ok(());
    }
    let number = rec.digest;
    if number.0 == NUMBER_LIMIT {
        return Err(Refusal::NumbersSpent);
    }
    Ok(())
}

// 12 and 10.
fn check_room(rec: Record, length: usize) -> Result<(), Refusal>
    requires { (length ≤ 256) × (rec.map < 2 ^ rec.slots) }
    ensures { result ≡ checked (first_cause (room_tests rec.edition rec length)) }
{
    if no_room(rec, length) {
        return Err(Refusal::NoRoom);
    }
    check_number(rec, length)
}

// 21: the key has another version than the one that is expected.
fn check_version(expected: Expected, version: Version) -> Result<(), Refusal>
    ensures { result ≡ checked (first_cause (version_tests expected version.0)) }
{
    match expected {
        Expected::Any => Ok(()),
        Expected::Only(only) => {
            if only.0 == version.0 {
                return Ok(());
            }
            Err(Refusal::OtherVersion)
        }
    }
}

// 4, where a forbidden byte was met, and 21, by what is known of the key. A deleted key is absent: its version is 0.
fn check_expected(expected: Expected, presence: Presence) -> Result<(), Refusal>
    ensures { result ≡ checked (first_cause (expected_tests expected (facts_of presence))) }
{
    match presence {
        Presence::Object(version) => check_version(expected, version),
        Presence::Tombstone => check_version(expected, Version(0)),
        Presence::Nothing => check_version(expected, Version(0)),
        Presence::Forbidden => Err(Refusal::BadRecord),
    }
}

// 11: whether a key that has no entry finds room in the index.
fn check_keys(rec: Record) -> Result<(), Refusal>
    requires { 1 ≤ rec.cells }
    ensures { result ≡ checked (first_cause (key_tests rec (facts_of Presence.Nothing))) }
{
    if rec.keys == rec.cells - 1 {
        return Err(Refusal::KeysFull);
    }
    Ok(())
}

// 11, by what is known of the key.
fn check_key(rec: Record, presence: Presence) -> Result<(), Refusal>
    requires { 1 ≤ rec.cells }
    ensures { result ≡ checked (first_cause (key_tests rec (facts_of presence))) }
{
    match presence {
        Presence::Object(_) => Ok(()),
        Presence::Tombstone => Ok(()),
        Presence::Nothing => check_keys(rec),
        Presence::Forbidden => check_keys(rec),
    }
}

// 9: the versions of the edition that new heads have are spent.
fn versions_spent(rec: Record) -> bool
    ensures { result ≡ versions_spent rec }
{
    let next = rec.next;
    next.0 == version_limit(new_edition(rec))
}

// 9, 11, 12 and 10, for an entry of that length.
fn check_entry(rec: Record, presence: Presence, length: usize) -> Result<(), Refusal>
    requires { (length ≤ 256) × (rec.map < 2 ^ rec.slots) × (1 ≤ rec.cells) }
    ensures { result ≡ checked (first_cause (entry_tests rec.edition rec (facts_of presence) length)) }
{
    if versions_spent(rec) {
        return Err(Refusal::VersionsSpent);
    }
    check_key(rec, presence)?;
    check_room(rec, length)
}

// Write: 22, 3, 5, 7, 21, 9, 11, 12, 10, for a value of so many bytes and a record that has passed 4's test of range and lengths.
pub fn check_fitting(
    rec: Record,
    area: &[u8],
    index: &[u32],
    work: usize,
    tables: Tables,
    expected: Expected,
    key: Key,
    value: usize,
) -> Result<(), Refusal>
    requires { fits_lent rec.edition rec (length area.now) (length index.now) ≡ true }
    ensures { result ≡ checked
        (first_cause
        (write_causes rec.edition rec
        (record { area = length area.entry.now; index = length index.now; work = work })
        (record { tables = tables; expected = expected }) key
        (facts_for area.entry.now index.now key) value)) }
{
    let edition = rec.edition;
    check_first(rec, area.len(), index.len(), work, tables, key)?;
    if object_kind(edition, value) == 0 {
        return Err(Refusal::ValueLength);
    }
    let presence = find(area, index, key);
    check_expected(expected, presence)?;
    check_entry(rec, presence, head_size(edition) + value)
}

// Write: 4, 22, 3, 5, 7, 21, 9, 11, 12, 10, for a value of so many bytes.
pub fn check_write(
    rec: Record,
    area: &[u8],
    index: &[u32],
    work: usize,
    tables: Tables,
    expected: Expected,
    key: Key,
    value: usize,
) -> Result<(), Refusal>
    ensures { result ≡ checked
        (first_cause
        (write_causes rec.edition rec
        (record { area = length area.entry.now; index = length index.now; work = work })
        (record { tables = tables; expected = expected }) key
        (facts_for area.entry.now index.now key) value)) }
{
    if !fits_lent(rec, area.len(), index.len()) {
        return Err(Refusal::BadRecord);
    }
    check_fitting(rec, area, index, work, tables, expected, key, value)
}

// Delete: 4, 22, 3, 5, 8, 9. The next test is by the room for the tombstone: `check_number`, or `full::check_full` where it finds none.
pub fn check_delete(
    rec: Record,
    area: &[u8],
    index: &[u32],
    work: usize,
    tables: Tables,
    key: Key,
) -> Result<(), Refusal>
    ensures { result ≡ checked
        (first_cause
        (present_tests rec.edition rec
        (record { area = length area.entry.now; index = length index.now; work = work })
        tables key (facts_for area.entry.now index.now key))) }
{
    if !fits_lent(rec, area.len(), index.len()) {
        return Err(Refusal::BadRecord);
    }
    check_first(rec, area.len(), index.len(), work, tables, key)?;
    match find(area, index, key) {
        Presence::Forbidden => Err(Refusal::BadRecord),
        Presence::Nothing => Err(Refusal::Absent),
        Presence::Tombstone => Err(Refusal::Absent),
        Presence::Object(_) => {
            if versions_spent(rec) {
                return Err(Refusal::VersionsSpent);
            }
            Ok(())
        }
    }
}
