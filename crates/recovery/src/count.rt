// Counting (02, R-5): how many bytes of each slot are present objects, from an index that was just built.
ghost use Rattle.std.specs.Prelude.{◌≤◌, ◌<◌, ◌≡◌, length};
ghost use Rattle.model.specs.Counts.{more_bytes};
ghost use Rattle.recovery.specs.Counting.{count_cell, counted_in, NoneAbove};

use segment::area::object_length;

// So many bytes more in the number of a slot, if it has one.
fn add_bytes(counts: &mut [u32], slot: u32, bytes: u32)
    requires { (bytes ≤ 256) × NoneAbove 1048576 counts.old }
    ensures { counts.new ≡ more_bytes slot bytes counts.old }
{
    let i = slot as usize;
    if i < counts.len() {
        counts[i] += bytes;
    }
}

// One cell more.
fn count_cell(s: u32, area: &[u8], cell: u32, counts: &mut [u32])
    requires { (0 < s) × NoneAbove 1048576 counts.old }
    ensures { counts.new ≡ count_cell s area.now cell counts.old }
{
    if cell == 0 {
        return;
    }
    let place = cell - 1;
    let bytes = object_length(area, place as usize);
    add_bytes(counts, place / s, bytes as u32);
}

// The present bytes of the 32 slots.
pub fn count(s: u32, area: &[u8], cells: &[u32]) -> [u32; 32]
    requires { (0 < s) × (length cells.now ≤ 4096) }
    ensures { result ≡ counted_in s area.now cells.now }
{
    let mut counts = [0; 32];
    for cell in cells {
        count_cell(s, area, *cell, &mut counts);
    }
    counts
}
