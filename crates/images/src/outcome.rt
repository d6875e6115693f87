// The recovery of an item's image and the reads after it.
ghost use Rattle.std.specs.Prelude.{◌≡◌};
ghost use Rattle.images.specs.Cells.{all_are};

use crate::bundle::Item;
use crate::{bundle, lines};
use record::{Record, Tables};
use segment::Key;
use std::io;
use store::{read, read_value, recover};

// What every cell holds before a recovery: it leads to the first entry of slot 0, and no cell is 0.
pub const OLD: u32 = 14;

// Whether every cell of the index is that one.
fn all_are(index: &[u32], cell: u32) -> bool
    ensures { result ≡ all_are cell index.now }
{
    index.iter().all(|c| *c == cell)
}

// The number of a refusal and what it left of the index.
fn refused(rt: &impl Print, number: u32, index: &[u32]) -> io::Result<()> {
    lines::field(rt, b": refused ", number)?;
    if all_are(index, OLD) {
        return lines::text(rt, b" kept\n");
    }
    if all_are(index, 0) {
        return lines::text(rt, b" zeros\n");
    }
    lines::text(rt, b" changed\n")
}

// What both reads of a key answer.
fn read_line(rt: &impl Print, rec: Record, area: &[u8], index: &[u32], key: Key) -> io::Result<()> {
    lines::key(rt, key)?;
    let tables = Tables {
        first: 0,
        last: 65535,
    };
    let value = read_value(rec, area, index, tables, key);
    let reading = read(rec, area, index, tables, key);
    let answer = reading.answer;
    match answer {
        Ok(present) => {
            lines::version(rt, b" version ", present.version)?;
            lines::field(rt, b" kind ", present.kind as u32)?;
        }
        Err(cause) => {
            lines::field(rt, b" refused ", record::number(cause))?;
        }
    }
    lines::text(rt, b" value")?;
    lines::value(rt, value)
}

// A line for each key of the list.
fn reads(rt: &impl Print, rec: Record, area: &[u8], index: &[u32], keys: &[u8]) -> io::Result<()> {
    for key in keys.chunks_exact(bundle::KEY) {
        read_line(rt, rec, area, index, bundle::key_at(key, 0))?;
    }
    Ok(())
}

// What comes of an image: the refusal, or the record and the reads.
pub fn of_image(rt: &impl Print, item: Item<'_>, area: &[u8], index: &mut [u32]) -> io::Result<()> {
    let h = item.header;
    let recovery = recover(h.slots as u32, h.size as u32, item.order, area, index);
    let answer = recovery.answer;
    let rec = recovery.rec;
    match answer {
        Err(cause) => refused(rt, record::number(cause), index),
        Ok(()) => {
            lines::record(rt, rec)?;
            reads(rt, rec, area, index, item.keys)
        }
    }
}
