// The search for a key: from the cell of its hash up and round the end, to the cell that holds it or to the first free one.
ghost use Rattle.std.specs.Prelude.{◌-◌, ◌%◌, ◌≤◌, ◌<◌, ◌≡◌, length};
ghost use Rattle.index.specs.Search.{cell_has, probe, search_for};

use crate::Found;
use segment::Key;
use word::fnv::key_hash;
use word::number::{read16, read32};
use word::remainder::remainder;

// The length of the shortest entry of any edition, a tombstone of the first.
const SHORTEST: usize = 11;

// Whether the entry at a cell's place has that key, which stands at the same offsets in either edition. A place at which no
// entry fits has none. The key is read at its offsets and not through the entry reader, for this is done in every turn of the
// search: through the reader a read of a present key takes 12 to 17 % longer, of an absent one up to 28 %.
fn cell_has(area: &[u8], key: Key, cell: u32) -> bool
    requires { 0 < cell }
    ensures { result ≡ cell_has area.now key cell }
{
    let place = (cell - 1) as usize;
    if area.len() < place + SHORTEST {
        return false;
    }
    if key.table != read16(area, place + 1) {
        return false;
    }
    key.key == read32(area, place + 3)
}

// As many cells as an index can have (01: M up to 4,096). The range test lets no call go on with more.
const MOST_CELLS: usize = 4096;

// The first of m cells to look at.
fn first_cell(hash: u32, m: u16) -> u16
    requires { 0 < m }
    ensures { result ≡ hash % m }
{
    remainder(hash as usize, m as usize) as u16
}

// The cells from a place up to an end, both held in 16 bits. Nothing goes round in here: a turn's place is the one before
// and 1 more, so that no upper bits are to be cleared in each turn.
fn search_up(area: &[u8], cells: &[u32], key: Key, from: u16, end: u16) -> Found
    requires { (from ≤ end) × (end ≤ length cells.now) }
    ensures { result ≡ probe (cell_has area.now key) cells.now (end - from) from }
{
    for at in from..end {
        let cell = cells[at as usize];
        if cell == 0 {
            return Found::Free(at as usize);
        }
        if cell_has(area, key, cell) {
            return Found::At(at as usize);
        }
    }
    Found::Full
}

// Where a key's cell is, or where it would be: a run from its first cell up to the end, then one from 0 up to its first cell.
// The place among the cells and their number are held in 16 bits. Both runs are one call in a loop, for with two calls this
// function is no longer put in line in the reads.
pub fn search(area: &[u8], cells: &[u32], key: Key) -> Found
    ensures { result ≡ search_for area.now cells.now key }
{
    let length = cells.len();
    if length == 0 {
        return Found::Full;
    }
    if MOST_CELLS < length {
        return Found::Full;
    }
    let m = length as u16;
    let mut from = first_cell(key_hash(key.table, key.key), m);
    let mut end = m;
    while 0 < end {
        match search_up(area, cells, key, from, end) {
            Found::At(i) => {
                return Found::At(i);
            }
            Found::Free(i) => {
                return Found::Free(i);
            }
            Found::Full => {
                end = from;
                from = 0;
            }
        }
    }
    Found::Full
}
