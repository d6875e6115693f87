// The conversion of an image (02, R-12) for a firmware in C or Rust: no words and no index are lent. The answer is 0 or the refusal's
// number.
ghost use Rattle.kurdavel.specs.Crossing.{ConvertCrossed};

use record::number;
use store::convert;

pub fn kurdavel_convert(slots: u32, size: u32, source: &[u8], target: &mut [u8]) -> u32
    ensures { ConvertCrossed slots size source.now target.old target.new result }
{
    match convert(slots, size, source, target) {
        Ok(()) => 0,
        Err(cause) => number(cause),
    }
}
