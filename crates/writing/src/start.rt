// The start of a write (01, "Operations, store by store"). The area and the index are only read.
ghost use Rattle.model.specs.Operations.{write};
ghost use Rattle.model.specs.Refused.{reaching};
ghost use Rattle.model.specs.Promises.{StartPromise};

use crate::causes::check_write;
use crate::lay::lay_entry;
use record::{Expected, Record, Start, Tables};
use segment::Key;
use segment::layout::object_kind;
use starting::answer::{refused, started};

// A value is to come under a key, if the key has the version that is expected.
pub fn write_expecting(
    rec: Record,
    area: &[u8],
    index: &[u32],
    work: &mut [u8],
    tables: Tables,
    expected: Expected,
    key: Key,
    value: &[u8],
) -> Start
    ensures { StartPromise rec.edition (record { tables = tables; expected = expected }) (write key value.now) rec
        area.now index.now work.old work.new result }
{
    let edition = rec.edition;
    match check_write(
        rec,
        area,
        index,
        work.len(),
        tables,
        expected,
        key,
        value.len(),
    ) {
        Err(c) => refused(rec, c),
        Ok(()) => {
            let laying = lay_entry(rec, work, object_kind(edition, value.len()), key, value);
            let pending = laying.pending;
            started(rec, pending, laying.left)
        }
    }
}

// A value is to come under a key, whatever version the key has.
pub fn write(
    rec: Record,
    area: &[u8],
    index: &[u32],
    work: &mut [u8],
    tables: Tables,
    key: Key,
    value: &[u8],
) -> Start
    ensures { StartPromise rec.edition (reaching tables) (write key value.now) rec area.now index.now
        work.old work.new result }
{
    write_expecting(rec, area, index, work, tables, Expected::Any, key, value)
}
