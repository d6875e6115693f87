// Whether another edition has room for the versions of a log (30).
ghost use Rattle.std.specs.Prelude.{◌≤◌, ◌≡◌, length};
ghost use Rattle.std.proofs.Math.Option.{some};
ghost use Rattle.segment.specs.Digest.{digest_of};
ghost use Rattle.segment.specs.Layout.{edition2, digest_size};
ghost use Rattle.slot_map.specs.Bit.{named};
ghost use Rattle.model.specs.Log.{views_of, log_of, highest};
ghost use Rattle.model.specs.Conversion.{next_too_wide, slot_too_wide};
ghost use Rattle.drive_log.specs.Shape.{Shape};
ghost use Rattle.converting.specs.Parts.{LogOf};

use drive_log::slots::is_named;
use segment::area::cut;
use segment::layout::version_limit;
use segment::reader::digest;
use segment::{Edition, Version};

// Whether the digest of a slot has a next version above the other edition's.
fn digest_too_wide(from: Edition, to: Edition, part: &[u8]) -> bool
    requires { digest_size edition2 ≤ length part.now }
    ensures { result ≡ next_too_wide to (some (digest_of from part.now)) }
{
    let found = digest(from, part);
    let next = found.next;
    version_limit(to) < next.0
}

// Whether a slot of the log has a version or a next version that is none of the other edition. The highest version tells of all
// entries, so that only the digests are read.
pub fn too_wide(
    from: Edition,
    to: Edition,
    n: usize,
    s: usize,
    source: &[u8],
    map: u32,
    top: Version,
) -> bool
    requires shape { Shape n s source.now × LogOf from (views_of source.now s) (named map) n }
    requires top_value { top.0 ≡ highest (log_of (views_of source.now s) (named map) n) }
    ensures { result ≡ slot_too_wide to (views_of source.now s) (named map) n }
{
    if version_limit(to) <= top.0 {
        return true;
    }
    for slot in 0..n {
        if !is_named(map, slot) {
            continue;
        }
        if digest_too_wide(from, to, cut(s, source, slot)) {
            return true;
        }
    }
    false
}
