// The read by scan and the read of the value (02, R-9): 1, 16, 17, 24, 25, 28, 18, 19, 22, 8.
ghost use Rattle.std.specs.Prelude.{◌≡◌};
ghost use Rattle.segment.specs.Area.{stands_at};
ghost use Rattle.slot_map.specs.Bit.{named};
ghost use Rattle.model.specs.Log.{views_of, log_of};
ghost use Rattle.model.specs.Recovery.{image_layout};
ghost use Rattle.model.specs.Scanned.{ScanPromise, ScanReference};
ghost use Rattle.laws.specs.LogLaws.{AllScanned};
ghost use Rattle.drive_log.specs.Shape.{Shape};
ghost use Rattle.scanning.specs.Seeking.{sought_read, sought_in, sought};

use crate::newest::newest;
use record::reach::holds_table;
use record::{Present, Refusal, Tables};
use recovery::Object;
use recovery::format::geometry_bad;
use recovery::recover::look_at;
use segment::area::entry_at;
use segment::layout::{edition_of_kind, head_size};
use segment::{Key, Read};

// The object that stands at a place of the area; a tombstone is none.
fn found_at(area: &[u8], place: usize) -> Result<Object, Refusal>
    ensures { result ≡ sought_read place (stands_at area.now place) }
{
    match entry_at(area, place) {
        Read::Object {
            key: _,
            version,
            kind,
            length,
        } => Ok(Object {
            place,
            version,
            kind,
            length,
        }),
        Read::Tombstone {
            key: _,
            version: _,
            length: _,
        } => Err(Refusal::Absent),
        Read::End => Err(Refusal::Absent),
        Read::Damage => Err(Refusal::Absent),
    }
}

// 22 and 8, in the undamaged log of a map.
fn seek_in(
    n: usize,
    s: usize,
    area: &[u8],
    map: u32,
    tables: Tables,
    key: Key,
) -> Result<Object, Refusal>
    requires { Shape n s area.now × AllScanned (views_of area.now s) (named map) n }
    ensures { result ≡ sought_in s (log_of (views_of area.now s) (named map) n) tables key }
{
    if !holds_table(tables, key.table) {
        return Err(Refusal::OutsideTables);
    }
    let seen = newest(n, s, area, map, key);
    let version = seen.version;
    if version.0 == 0 {
        return Err(Refusal::Absent);
    }
    found_at(area, seen.place)
}

// What the log of the area's head holds of a key, if the image passes.
pub fn seek(n: u32, s: u32, area: &[u8], tables: Tables, key: Key) -> Result<Object, Refusal>
    ensures { result ≡ sought (image_layout n s area.now) n s area.now tables key }
{
    if geometry_bad(n, s, area.len()) {
        return Err(Refusal::Geometry);
    }
    let image = look_at(false, n as usize, s as usize, area)?;
    seek_in(n as usize, s as usize, area, image.digest.map, tables, key)
}

// The version and kind of a key's object.
pub fn scan_read(n: u32, s: u32, area: &[u8], tables: Tables, key: Key) -> Result<Present, Refusal>
    ensures { ScanPromise (image_layout n s area.now) n s area.now tables key result }
{
    let object = seek(n, s, area, tables, key)?;
    Ok(Present {
        version: object.version,
        kind: object.kind,
    })
}

// The value of a key's object, as a part of the area; the empty part at its start where `scan_read` refuses. The object's kind
// tells where the value starts (02, R-11).
pub fn scan_read_value<'a>(n: u32, s: u32, area: &'a [u8], tables: Tables, key: Key) -> &'a [u8]
    ensures { ScanReference (image_layout n s area.now) n s area.entry tables key result }
{
    match seek(n, s, area, tables, key) {
        Err(_) => &area[0..0],
        Ok(object) => {
            let start = object.place + head_size(edition_of_kind(object.kind));
            &area[start..object.place + object.length]
        }
    }
}
