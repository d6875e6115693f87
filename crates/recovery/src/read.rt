// Reads (01, "Read"): what the index says of a key, its version and kind, and its value.
ghost use Rattle.std.specs.Prelude.{ℕ, ◌≡◌};
ghost use Rattle.segment.specs.Area.{stands_at};
ghost use Rattle.model.specs.Promises.{ReadPromise, ValueReference};
ghost use Rattle.index.specs.declared.Found.{Found};
ghost use Rattle.recovery.specs.Lookups.{lookup_of, lookup_at, looked_up, told_by, Reached};

use crate::Object;
use index::Found;
use index::search::search;
use record::range::fits_lent;
use record::reach::holds_table;
use record::{Answered, Present, Reading, Record, Refusal, Tables};
use segment::area::entry_at;
use segment::layout::{edition_of_kind, head_size};
use segment::{Key, Read};

// What stands at a place of the area.
fn look(area: &[u8], place: usize) -> Result<Object, Refusal>
    ensures { result ≡ lookup_of place (stands_at area.now place) }
{
    match entry_at(area, place) {
        Read::Object {
            key: _,
            version,
            kind,
            length,
        } => Ok(Object {
            place,
            version,
            kind,
            length,
        }),
        Read::Tombstone {
            key: _,
            version: _,
            length: _,
        } => Err(Refusal::Absent),
        Read::End => Err(Refusal::BadRecord),
        Read::Damage => Err(Refusal::BadRecord),
    }
}

// What stands where a search has ended. A place at which no entry stands, and a search without an end, are bad.
pub fn look_at(area: &[u8], index: &[u32], found: Found) -> Result<Object, Refusal>
    requires { (i : ℕ) → found ≡ Found.At i → Reached index.now i }
    ensures { result ≡ lookup_at area.now index.now found }
{
    match found {
        Found::Full => Err(Refusal::BadRecord),
        Found::Free(_) => Err(Refusal::Absent),
        Found::At(i) => look(area, (index[i] - 1) as usize),
    }
}

// What the index says of a key that the caller may reach.
pub fn find(
    rec: Record,
    area: &[u8],
    index: &[u32],
    tables: Tables,
    key: Key,
) -> Result<Object, Refusal>
    ensures { result ≡ looked_up rec.edition rec area.now index.now tables key }
{
    if !fits_lent(rec, area.len(), index.len()) {
        return Err(Refusal::BadRecord);
    }
    if !holds_table(tables, key.table) {
        return Err(Refusal::OutsideTables);
    }
    look_at(area, index, search(area, index, key))
}

// The read's answer.
pub fn told(found: Result<Object, Refusal>) -> Result<Present, Refusal>
    ensures { result ≡ told_by found }
{
    let object = found?;
    Ok(Present {
        version: object.version,
        kind: object.kind,
    })
}

// The version and kind of a key's object. The record is handed back.
pub fn read(rec: Record, area: &[u8], index: &[u32], tables: Tables, key: Key) -> Reading
    ensures { ReadPromise rec.edition rec area.now index.now tables key result }
{
    let answer = told(find(rec, area, index, tables, key));
    Answered { answer, rec }
}

// The value of a key's object, as a part of the area; the empty part at its start where `read` refuses. The object's kind tells
// where the value starts (02, R-11).
pub fn read_value<'a>(
    rec: Record,
    area: &'a [u8],
    index: &[u32],
    tables: Tables,
    key: Key,
) -> &'a [u8]
    ensures { ValueReference rec.edition rec area.entry index.now tables key result }
{
    match find(rec, area, index, tables, key) {
        Ok(object) => {
            let start = object.place + head_size(edition_of_kind(object.kind));
            &area[start..object.place + object.length]
        }
        Err(_) => &area[0..0],
    }
}
