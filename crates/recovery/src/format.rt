// Format (01, "Operations, store by store"): an area becomes an empty store.
ghost use Rattle.std.specs.Prelude.{◌*◌, ◌≤◌, ◌<◌, ◌≡◌, length};
ghost use Rattle.segment.specs.Layout.{number_of_layout};
ghost use Rattle.model.specs.Recovery.{geometry_bad};
ghost use Rattle.model.specs.Operations.{cleared};
ghost use Rattle.model.specs.Promises.{FormatPromise};

use record::Refusal;
use record::range::{size_good, slots_good};
use segment::layout::digest_size;
use segment::writer::write_digest;
use segment::{Digest, DigestNumber, Edition, Version};

// Whether N or S is outside its limits, or the area not N × S bytes long.
pub fn geometry_bad(n: u32, s: u32, area: usize) -> bool
    ensures { result ≡ geometry_bad n s area }
{
    if !slots_good(n) {
        return true;
    }
    if !size_good(s) {
        return true;
    }
    area != n as usize * s as usize
}

// Byte 0 of every slot becomes 0.
fn clear(n: usize, s: usize, area: &mut [u8])
    requires { (0 < s) × (n * s ≤ length area.old) }
    ensures { area.new ≡ cleared s n area.old }
{
    for slot in 0..n {
        area[slot * s] = 0;
    }
}

// Slot 0 becomes the head of an empty log of an edition, and no other slot has a digest.
fn format_as(edition: Edition, n: u32, s: u32, area: &mut [u8]) -> Result<(), Refusal>
    ensures { FormatPromise (number_of_layout edition) n s area.old area.new result }
{
    if geometry_bad(n, s, area.len()) {
        return Err(Refusal::Geometry);
    }
    clear(n as usize, s as usize, area);
    let first = Digest {
        number: DigestNumber(1),
        map: 1,
        next: Version(1),
    };
    write_digest(edition, area, 0, first);
    area[digest_size(edition)] = 0;
    Ok(())
}

// Format is told the edition by its number (02, R-11), and any but 1 and 2 is refused.
pub fn format(n: u32, s: u32, edition: u32, area: &mut [u8]) -> Result<(), Refusal>
    ensures { FormatPromise edition n s area.old area.new result }
{
    if edition == 1 {
        return format_as(Edition::First, n, s, area);
    }
    if edition == 2 {
        return format_as(Edition::Second, n, s, area);
    }
    Err(Refusal::Geometry)
}
