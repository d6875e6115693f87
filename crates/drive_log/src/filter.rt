// A filter of bits over versions: one bit for each version modulo their number. While a version's bit is not set, no entry passed
// has it.
ghost use Rattle.std.specs.Prelude.{◌≡◌, length};
ghost use Rattle.drive_log.specs.Filter.{is_marked, marked_with};

use segment::Version;

// Sets a version's bit, and answers whether it was set. Each word has the bits of 32 versions; those of versions that follow one
// another stand in different words, so that no mark waits for the store of the one before.
pub fn mark(filter: &mut [u32], version: Version) -> bool
    requires { length filter.old ≡ 512 }
    ensures was { result ≡ is_marked filter.old version.0 }
    ensures now { filter.new ≡ marked_with filter.old version.0 }
{
    let word = (version.0 % 512) as usize;
    let bit = (version.0 / 512 % 32) as u32;
    let old = filter[word];
    filter[word] = slot_map::with_slot(old, bit);
    slot_map::has_slot(old, bit)
}
