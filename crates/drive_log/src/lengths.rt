// Lengths of entries in a segment that is known to be undamaged, by their kinds.
ghost use Rattle.std.specs.Prelude.{◌≡◌};
ghost use Rattle.segment.specs.Kinds.{kind_size};

use segment::Edition;
use segment::layout::kind_size;

// The length of an entry of a kind, where that of the last one's is known. Entries of one kind stand in a row often, and a
// processor that foresees this goes on to the next one without waiting for the length.
pub fn size_after(edition: Edition, last: u8, length: usize, kind: u8) -> usize
    requires { length ≡ kind_size edition last }
    ensures { result ≡ kind_size edition kind }
{
    if kind == last {
        return length;
    }
    kind_size(edition, kind)
}
