// The start of a delete (01, "Operations, store by store"; 02, R-4). The area and the index are only read.
ghost use Rattle.model.specs.Operations.{delete};
ghost use Rattle.model.specs.Refused.{reaching};
ghost use Rattle.model.specs.Promises.{StartPromise};

use crate::forget::forget;
use record::{Record, Start, Tables};
use segment::Key;
use segment::layout::{head_size, tombstone_kind};
use starting::answer::{refused, started};
use writing::causes::{check_delete, check_number, no_room};
use writing::lay::lay_entry;

// A key is to go: a tombstone, which has no value, takes the next version. Where it finds no room, the slot with the live object
// is cleaned instead, and 10 is tested behind 12 there.
pub fn delete(
    rec: Record,
    area: &[u8],
    index: &[u32],
    work: &mut [u8],
    tables: Tables,
    key: Key,
) -> Start
    ensures { StartPromise rec.edition (reaching tables) (delete key) rec area.now index.now work.old
        work.new result }
{
    let edition = rec.edition;
    match check_delete(rec, area, index, work.len(), tables, key) {
        Err(c) => refused(rec, c),
        Ok(()) => {
            let length = head_size(edition);
            if no_room(rec, length) {
                return forget(rec, area, index, work, key);
            }
            match check_number(rec, length) {
                Err(c) => refused(rec, c),
                Ok(()) => {
                    let laying = lay_entry(rec, work, tombstone_kind(edition), key, &area[0..0]);
                    let pending = laying.pending;
                    started(rec, pending, laying.left)
                }
            }
        }
    }
}
