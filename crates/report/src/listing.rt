// The lines of the present keys, and the listing of a recovered area.
ghost use Rattle.std.specs.Prelude.{◌+◌, ◌*◌, ◌≤◌, ◌≡◌, length};
ghost use Rattle.model.specs.Log.{present};
ghost use Rattle.model.specs.Operations.{log_now};
ghost use Rattle.report.specs.Gather.{RecoveredArea, present_ranks};
ghost use Rattle.report.specs.PutLaws.{PutWithin};
ghost use Rattle.report.specs.Report.{line_of, present_lines, listing_text, text_room};

use crate::CELLS;
use crate::gather::gather;
use crate::lines::{put_head, put_key};
use crate::ranks::key_of;
use record::{Record, Tables};
use recovery::read::find;
use segment::Key;

// The line of a key; no line for a key that is not present.
fn put_line(rec: Record, area: &[u8], index: &[u32], key: Key, out: &mut [u8], at: usize) -> usize
    requires { RecoveredArea rec.edition area.now rec index.now × (at + 54 ≤ length out.old) }
    ensures { PutWithin out.old out.new at result
        (line_of key (present (log_now area.now rec) key)) 54 }
{
    let table = key.table;
    let own = Tables {
        first: table,
        last: table,
    };
    match find(rec, area, index, own, key) {
        Ok(object) => put_key(out, at, key, object.version, object.kind),
        Err(_) => at,
    }
}

// The lines of the present keys, whose ranks these are.
fn put_lines(
    rec: Record,
    area: &[u8],
    index: &[u32],
    ranks: &[u64],
    out: &mut [u8],
    at: usize,
) -> usize
    requires { RecoveredArea rec.edition area.now rec index.now
        × (ranks.now ≡ present_ranks area.now rec)
        × (at + 54 * length ranks.now ≤ length out.old) }
    ensures { PutWithin out.old out.new at result (present_lines area.now rec)
        (54 * length ranks.now) }
{
    let mut end = at;
    for rank in ranks {
        end = put_line(rec, area, index, key_of(*rank), out, end);
    }
    end
}

// The listing of a recovered area: the head line and the lines of the present keys.
pub fn put_listing(rec: Record, area: &[u8], index: &[u32], out: &mut [u8]) -> usize
    requires { RecoveredArea rec.edition area.now rec index.now × (text_room ≤ length out.old) }
    ensures { PutWithin out.old out.new 0 result (listing_text area.now rec) text_room }
{
    let digest = rec.digest;
    let next = rec.next;
    let mut ranks = [0; CELLS];
    let keys = gather(area, index, &mut ranks);
    let at = put_head(out, next, digest, keys as u32);
    put_lines(rec, area, index, &ranks[..keys], out, at)
}
