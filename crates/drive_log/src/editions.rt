// The edition of a walk that is compiled once for each of them.
ghost use Rattle.std.specs.Prelude.{◌≡◌};
ghost use Rattle.drive_log.specs.Editions.{edition_if};

use segment::Edition;

// The second edition or the first. Of a const parameter it is a constant.
pub fn edition_if(second: bool) -> Edition
    ensures { result ≡ edition_if second }
{
    if second {
        return Edition::Second;
    }
    Edition::First
}
