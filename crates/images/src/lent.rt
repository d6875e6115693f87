// What an item lends to recovery: the area, the index of M cells, and the order list.
use crate::bundle::Item;
use crate::{bundle, lines, outcome};
use std::io;

// What an area holds where nothing was stored. A run of it reads as tombstones that share a version, so that a reader who
// passes an end is found out.
const JUNK: u8 = 4;

// The longest area that is lent: one byte more than a store's can have.
const LONGEST: usize = 65537;

// The recovery with an index of M cells.
fn with_index(rt: &impl Print, item: Item<'_>, area: &[u8]) -> io::Result<()> {
    let mut cells = [outcome::OLD; 65535];
    let m = item.header.cells as usize;
    outcome::of_image(rt, item, area, &mut cells[..m])
}

// The stored bytes of an area, as many as it has room for.
fn lay(area: &mut [u8], stored: &[u8]) {
    let n = area.len().min(stored.len());
    area[..n].copy_from_slice(&stored[..n]);
}

// The recovery of an area that is stored in part; one that is too long is passed over.
fn with_area(rt: &impl Print, item: Item<'_>) -> io::Result<()> {
    let mut room = [JUNK; LONGEST];
    let length = item.header.area as usize;
    if length > LONGEST {
        return Ok(());
    }
    let area = &mut room[..length];
    lay(area, item.stored);
    with_index(rt, item, area)
}

// An item that lacks a part is passed over.
pub fn of_item(rt: &impl Print, bytes: &[u8]) -> io::Result<()> {
    let Some(item) = bundle::parts(bytes) else {
        return Ok(());
    };
    lines::text(rt, item.name)?;
    with_area(rt, item)
}
