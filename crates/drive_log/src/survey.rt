// The survey of the log in one walk: damage, the highest version, and whether the filter tells all versions apart. Where it does,
// no two entries share a version, and none of them needs a second look.
ghost use Rattle.std.specs.Prelude.{◌+◌, ◌*◌, ◌≤◌, ◌≡◌, true, length};
ghost use Rattle.slot_map.specs.Bit.{named};
ghost use Rattle.model.specs.Log.{views_of, log_of};
ghost use Rattle.drive_log.specs.Shape.{Shape};
ghost use Rattle.drive_log.specs.Surveys.{Told, SlotTold, Surveyed, is_sound, highest_in, apart_in};

use crate::Passed;
use crate::parts::survey_part;
use crate::slots::is_named;
use segment::Version;
use segment::area::cut;
use segment::reader::edition_of;

// The entries of a slot, after those of the slots before it.
fn survey_slot(
    s: usize,
    area: &[u8],
    map: u32,
    slot: usize,
    filter: &mut [u32],
    before: Passed,
) -> Option<Passed>
    requires s_in_bounds { slot * s + s ≤ length area.now }
    requires slot_value { named map slot ≡ true }
    requires told { Told (log_of (views_of area.now s) (named map) slot) before.highest.0 before.apart filter.old }
    ensures { SlotTold (views_of area.now s) (named map) slot (is_sound result) (highest_in result) (apart_in result) filter.new }
{
    let part = cut(s, area, slot);
    survey_part(edition_of(part), part, filter, before)
}

// The log of a map, none where it is damaged. What is free: `apart` may be false though no version is shared, for the filter may
// take two versions for one.
pub fn survey(n: usize, s: usize, area: &[u8], map: u32) -> Option<Passed>
    requires { Shape n s area.now }
    ensures { Surveyed (views_of area.now s) (named map) n (is_sound result) (highest_in result) (apart_in result) }
{
    let mut filter = [0u32; 512];
    let mut passed = Passed {
        highest: Version(0),
        apart: true,
    };
    for slot in 0..n {
        if !is_named(map, slot) {
            continue;
        }
        passed = survey_slot(s, area, map, slot, &mut filter, passed)?;
    }
    Some(passed)
}
