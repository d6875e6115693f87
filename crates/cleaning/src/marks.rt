// Marks of the index's cells, one bit for each of at most 4,096.
ghost use Rattle.std.specs.Prelude.{◌≡◌, length};
ghost use Rattle.cleaning.specs.Marks.{is_marked, marked_with};

use crate::bits::{has_bit, set_bit};

// Marks a cell.
pub fn mark(marks: &mut [u32], cell: usize)
    requires { length marks.old ≡ 128 }
    ensures { marks.new ≡ marked_with marks.old cell }
{
    set_bit::<128>(marks, cell);
}

// Whether a cell is marked.
pub fn is_marked(marks: &[u32], cell: usize) -> bool
    requires { length marks.now ≡ 128 }
    ensures { result ≡ is_marked marks.now cell }
{
    has_bit::<128>(marks, cell)
}
