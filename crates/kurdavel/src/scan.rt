// The reads by scan (02, R-9) for a firmware in C or Rust: no words and no index are lent. The answer is 0 or the refusal's number.
ghost use Rattle.kurdavel.specs.Crossing.{ScanCrossed, ScanValueCrossed};

use record::{Tables, number};
use scanning::read::seek;
use segment::Key;
use segment::layout::{edition_of_kind, head_size};

// Version and kind, 0 where it is refused.
pub fn kurdavel_scan_read(
    slots: u32,
    size: u32,
    area: &[u8],
    first: u16,
    last: u16,
    table: u16,
    key: u32,
    version: &mut u64,
    kind: &mut u32,
) -> u32
    ensures { ScanCrossed slots size area.now (record { first = first; last = last }) (record { table = table; key = key })
        version.new kind.new result }
{
    *version = 0;
    *kind = 0;
    match seek(
        slots,
        size,
        area,
        Tables { first, last },
        Key { table, key },
    ) {
        Err(cause) => number(cause),
        Ok(object) => {
            *version = object.version.0;
            *kind = object.kind as u32;
            0
        }
    }
}

// The value as a part of the area, of no bytes at its start where it is refused.
pub fn kurdavel_scan_read_value(
    slots: u32,
    size: u32,
    area: &[u8],
    first: u16,
    last: u16,
    table: u16,
    key: u32,
    place: &mut u32,
    bytes: &mut u32,
) -> u32
    ensures { ScanValueCrossed slots size area.now (record { first = first; last = last })
        (record { table = table; key = key }) place.new bytes.new result }
{
    *place = 0;
    *bytes = 0;
    match seek(
        slots,
        size,
        area,
        Tables { first, last },
        Key { table, key },
    ) {
        Err(cause) => number(cause),
        Ok(object) => {
            let head = head_size(edition_of_kind(object.kind));
            *place = (object.place + head) as u32;
            *bytes = (object.length - head) as u32;
            0
        }
    }
}
