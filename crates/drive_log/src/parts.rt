// The survey of one segment. Its walk is compiled once for each edition, so that no turn asks for the edition and the lengths are
// constants, whose branches a processor can foresee.
ghost use Rattle.std.specs.Prelude.{◌≡◌, length};
ghost use Rattle.drive_log.specs.Editions.{edition_if};
ghost use Rattle.drive_log.specs.Surveys.{MarkedApart, PartTold, is_sound, highest_in, apart_in};

use crate::Passed;
use crate::editions::edition_if;
use crate::filter::mark;
use segment::entries::next;
use segment::layout::digest_size;
use segment::{Edition, Next, Version};

// Marks a version, and answers whether it and those before are apart. It is marked even where they are not: with no test for that a
// turn has fewer values to keep.
fn mark_apart(filter: &mut [u32], version: Version, apart: bool) -> bool
    requires { length filter.old ≡ 512 }
    ensures { MarkedApart filter.old version.0 apart result filter.new }
{
    if mark(filter, version) {
        return false;
    }
    apart
}

fn survey_as<const SECOND: bool>(part: &[u8], filter: &mut [u32], before: Passed) -> Option<Passed>
    requires { length filter.old ≡ 512 }
    ensures { PartTold (edition_if SECOND) part.now before.highest.0 before.apart filter.old (is_sound result) (highest_in result)
        (apart_in result) filter.new }
{
    let edition = edition_if(SECOND);
    let mut at = digest_size(edition);
    let mut highest = before.highest;
    let mut apart = before.apart;
    loop {
        match next(edition, part, at) {
            Next::Entry(header) => {
                let version = header.version;
                at += header.length;
                highest = highest.max(version);
                apart = mark_apart(filter, version, apart);
            }
            Next::End => {
                return Some(Passed { highest, apart });
            }
            Next::Damage => {
                return None;
            }
        }
    }
}

// The entries of a segment, after those of the log before it.
pub fn survey_part(
    edition: Edition,
    part: &[u8],
    filter: &mut [u32],
    before: Passed,
) -> Option<Passed>
    requires { length filter.old ≡ 512 }
    ensures { PartTold edition part.now before.highest.0 before.apart filter.old (is_sound result) (highest_in result) (apart_in result)
        filter.new }
{
    match edition {
        Edition::First => survey_as::<false>(part, filter, before),
        Edition::Second => survey_as::<true>(part, filter, before),
    }
}
