// The walk over the index that gathers the ranks of the present keys.
ghost use Rattle.std.specs.Prelude.{◌<◌, ◌≤◌, length};
ghost use Rattle.report.specs.Inserting.{AddsRank, Gathered};
ghost use Rattle.report.specs.Gather.{cell_rank};

use crate::ranks;
use segment::Read;
use segment::area::entry_at;

// Puts the rank of the key whose object a cell names among the first n, and answers how many they are then. The contract leaves
// free what stands behind those.
fn add_cell(area: &[u8], cell: u32, ranks: &mut [u64], n: usize) -> usize
    requires { n < length ranks.old }
    ensures { AddsRank ranks.old ranks.new n result (cell_rank area.now cell) }
{
    if cell == 0 {
        return n;
    }
    match entry_at(area, (cell - 1) as usize) {
        Read::Object {
            key,
            version: _,
            kind: _,
            length: _,
        } => {
            ranks::insert(ranks, n, ranks::rank(key));
            n + 1
        }
        Read::Tombstone {
            key: _,
            version: _,
            length: _,
        } => n,
        Read::End => n,
        Read::Damage => n,
    }
}

// The ranks of the present keys, ascending, and how many they are. The contract leaves free what stands behind them, and does not
// ask that the index keeps its rule: it says what each cell gives, and with the rule these are the present keys.
pub fn gather(area: &[u8], index: &[u32], ranks: &mut [u64]) -> usize
    requires { length index.now ≤ length ranks.old }
    ensures { Gathered (cell_rank area.now) index.now ranks.new 0 result }
{
    let mut n = 0;
    for i in (0..index.len()).rev() {
        n = add_cell(area, index[i], ranks, n);
    }
    n
}
