// The scan of one segment.
ghost use Rattle.std.specs.Prelude.{◌≡◌};
ghost use Rattle.model.specs.Log.{scan, end_of};

use segment::entries::next;
use segment::layout::digest_size;
use segment::{Edition, Next};

// Where a segment's entries end; 0 where it is damaged.
pub fn end_of(edition: Edition, part: &[u8]) -> usize
    ensures { result ≡ end_of (scan edition part.now) }
{
    let mut at = digest_size(edition);
    loop {
        match next(edition, part, at) {
            Next::Entry(header) => {
                at += header.length;
            }
            Next::End => {
                return at;
            }
            Next::Damage => {
                return 0;
            }
        }
    }
}
