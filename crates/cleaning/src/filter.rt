// A filter of keys: one bit for each of 4,096 values of a key. It may have a key that it was not given, and never misses one that
// it was.
ghost use Rattle.std.specs.Prelude.{◌≡◌, length};
ghost use Rattle.cleaning.specs.Filter.{spread, filter_has, filter_with};

use crate::marks::{is_marked, mark};
use segment::Key;
use word::fnv::wrapping_mul;

// The upper 12 bits of a product with the key.
fn spread(key: Key) -> usize
    ensures { result ≡ spread key }
{
    (wrapping_mul(key.key ^ u32::from(key.table) * 65536, 2654435761) / 1048576) as usize
}

// Puts a key into a filter.
pub fn put(filter: &mut [u32], key: Key)
    requires { length filter.old ≡ 128 }
    ensures { filter.new ≡ filter_with filter.old key }
{
    mark(filter, spread(key));
}

// Whether a filter has a key.
pub fn has(filter: &[u32], key: Key) -> bool
    requires { length filter.now ≡ 128 }
    ensures { result ≡ filter_has filter.now key }
{
    is_marked(filter, spread(key))
}
