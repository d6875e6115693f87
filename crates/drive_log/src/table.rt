// The table of suspects: 192 cells in ascending order, so that a search by halves finds a version and no choice of versions leaves
// cells unused. The empty ones are last and have the highest number, which is no entry's version.
ghost use Rattle.std.specs.Prelude.{◌+◌, ◌≤◌, ◌<◌, ◌≡◌, length, get_or};
ghost use Rattle.drive_log.specs.Tables.{vacant, holds, occupied, Empty, Sorted, Between, Halved, Put};

use segment::Version;

// What an empty cell has.
pub const VACANT: u64 = 18446744073709551615;

// How many cells are not empty.
pub fn occupied(table: &[u64]) -> usize
    ensures { result ≡ occupied table.now }
{
    let mut count = 0;
    for cell in table {
        count += usize::from(*cell < VACANT);
    }
    count
}

// Empties the table.
pub fn clear(table: &mut [u64])
    requires { length table.old ≡ 192 }
    ensures { Empty table.new }
{
    table.fill(VACANT);
}

// How many cells are below a version: by halves, quickly where versions rise, for its branches are then foreseen.
pub fn search(table: &[u64], version: Version) -> usize
    requires { Sorted table.now }
    ensures { Between table.now version.0 result result }
{
    // The library has no `partition_point`, and its `binary_search` may name any of several equal cells.
    let mut low = 0;
    let mut high = table.len();
    while low < high {
        let middle = low + (high - low) / 2;
        if table[middle] < version.0 {
            low = middle + 1;
        } else {
            high = middle;
        }
    }
    low
}

// Passes over some cells if all of them are below a version, which the last one tells.
fn pass_over(table: &[u64], version: Version, low: usize, size: usize) -> usize
    requires sorted { Sorted table.now }
    requires size_nonzero { (0 < size) × (low + size ≤ 192) }
    ensures { Halved table.now version.0 low size result }
{
    low + size * usize::from(table[low + size - 1] < version.0)
}

// The same as `search`, for versions in any order. The steps are written out, so that no branch waits for a cell: 65 of 192 cells
// leave 127, of which 64 leave 63, and so on.
pub fn search_steps(table: &[u64], version: Version) -> usize
    requires { Sorted table.now }
    ensures { Between table.now version.0 result result }
{
    let low = pass_over(table, version, 0, 65);
    let low = pass_over(table, version, low, 64);
    let low = pass_over(table, version, low, 32);
    let low = pass_over(table, version, low, 16);
    let low = pass_over(table, version, low, 8);
    let low = pass_over(table, version, low, 4);
    let low = pass_over(table, version, low, 2);
    pass_over(table, version, low, 1)
}

// Whether the version stands in the table, and then where the search for it ended.
pub fn stands_at(table: &[u64], version: Version, at: usize) -> bool
    requires sorted { Sorted table.now }
    requires between { Between table.now version.0 at at }
    ensures { result ≡ holds table.now version.0 }
{
    if at < table.len() {
        return table[at] == version.0;
    }
    false
}

// Puts a version in where the search for it ended: those above it go up by a cell, to the first that is empty.
pub fn insert(table: &mut [u64], version: Version, at: usize)
    requires sorted { Sorted table.old }
    requires between { Between table.old version.0 at at }
    requires version_lt_vacant { version.0 < vacant }
    requires table_value { get_or table.old 191 0 ≡ vacant }
    ensures { Put table.old version.0 table.new }
{
    // By hand: the library's shifts move the empty cells too, and where versions rise no cell moves here.
    let mut carried = version.0;
    let mut cell = at;
    while carried != VACANT {
        let old = table[cell];
        table[cell] = carried;
        carried = old;
        cell += 1;
    }
}
