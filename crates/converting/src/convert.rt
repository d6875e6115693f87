// The conversion of an area to a second buffer: 1, 16, 17, 24, 25, 28, 18, 19, 29, 30.
ghost use Rattle.std.specs.Prelude.{◌*◌, ◌≡◌, length};
ghost use Rattle.slot_map.specs.Bit.{named};
ghost use Rattle.model.specs.Log.{views_of, log_of, highest};
ghost use Rattle.model.specs.Conversion.{ConvertPromise};
ghost use Rattle.drive_log.specs.Shape.{Shape};
ghost use Rattle.converting.specs.Parts.{LogOf};
ghost use Rattle.converting.specs.Converting.{LogConverted};

use crate::rewrite::put_log;
use crate::sizes::too_long;
use crate::widths::too_wide;
use record::Refusal;
use recovery::format::geometry_bad;
use recovery::recover::look_at;
use segment::layout::other;
use segment::{Edition, Version};

// 29 and 30, and the log of a map written in the other edition where neither holds.
fn convert_log(
    from: Edition,
    n: usize,
    s: usize,
    source: &[u8],
    map: u32,
    top: Version,
    target: &mut [u8],
) -> Result<(), Refusal>
    requires shape { Shape n s source.now × LogOf from (views_of source.now s) (named map) n }
    requires top_value { (top.0 ≡ highest (log_of (views_of source.now s) (named map) n)) × (length target.old ≡ n * s) }
    ensures { LogConverted from (views_of source.now s) (named map) s n target.old target.new result }
{
    let to = other(from);
    if too_long(from, to, n, s, source, map) {
        return Err(Refusal::SlotTooLong);
    }
    if too_wide(from, to, n, s, source, map, top) {
        return Err(Refusal::VersionTooWide);
    }
    put_log(from, to, n, s, source, map, target);
    Ok(())
}

// An image of one edition put into the other: up from the first, down from the second. A refusal leaves the target as it was.
pub fn convert(n: u32, s: u32, source: &[u8], target: &mut [u8]) -> Result<(), Refusal>
    ensures { ConvertPromise n s source.now target.old target.new result }
{
    if geometry_bad(n, s, source.len()) {
        return Err(Refusal::Geometry);
    }
    if geometry_bad(n, s, target.len()) {
        return Err(Refusal::Geometry);
    }
    let image = look_at(true, n as usize, s as usize, source)?;
    let map = image.digest.map;
    convert_log(
        image.edition,
        n as usize,
        s as usize,
        source,
        map,
        image.highest,
        target,
    )
}
