// Recovery (01, "Refused calls" and "The log and its map"): the record of an area and its index, or the first cause.
ghost use Rattle.std.specs.Prelude.{◌+◌, ◌*◌, ◌≤◌, ◌<◌, max, ◌≡◌, eqb, ltb, length};
ghost use Rattle.std.proofs.Math.Option.{none};
ghost use Rattle.segment.specs.Choice.{either};
ghost use Rattle.slot_map.specs.Bit.{named};
ghost use Rattle.model.specs.Log.{views_of};
ghost use Rattle.model.specs.Causes.{first_cause};
ghost use Rattle.model.specs.Recovery.{image_layout, order_bad, sharing, digest_bad, digest_causes};
ghost use Rattle.model.specs.Promises.{RecoverPromise};
ghost use Rattle.drive_log.specs.Shape.{Shape};
ghost use Rattle.recovery.specs.Order.{see_slot, seen_from};
ghost use Rattle.recovery.specs.Recovering.{lent_first, checked_as, editions_bad, image_of, image_under, record_with, refused_with};

use crate::Image;
use crate::count::count;
use crate::format::geometry_bad;
use drive_log::head::{
    find_head, names_later_edition, names_no_digest, names_other_edition, shared_number,
};
use drive_log::scan::end_of;
use drive_log::survey::survey;
use drive_log::versions::version_shared;
use index::build::build;
use record::range::{cells_good, map_good};
use record::{Answered, Pending, Record, Recovery, Refusal, blank};
use segment::area::cut;
use segment::reader::edition_of;
use segment::{Digest, DigestNumber, Edition, Version};
use slot_map::with_slot;

// The slots seen so far and one more, if it is one of the n.
fn see_slot(n: u32, seen: u32, slot: u8) -> u32
    requires { n ≤ 32 }
    ensures { result ≡ see_slot n seen slot }
{
    let slot = slot as u32;
    if slot < n {
        return with_slot(seen, slot);
    }
    seen
}

// Which of the n slots the order list names, as a slot map.
fn slots_seen(n: u32, order: &[u8]) -> u32
    requires { n ≤ 32 }
    ensures { result ≡ seen_from n 0 order.now }
{
    let mut seen = 0;
    for slot in order {
        seen = see_slot(n, seen, *slot);
    }
    seen
}

// Whether the order list is anything but an order of the N slots.
fn order_bad(n: u32, order: &[u8]) -> bool
    requires { (1 ≤ n) × (n ≤ 32) }
    ensures { result ≡ order_bad n order.now }
{
    if order.len() != n as usize {
        return true;
    }
    slots_seen(n, order) != 0xffff_ffff >> (32 - n)
}

// 1, 2 and 15, before any look at the area.
fn check_lent(n: u32, s: u32, order: &[u8], area: usize, index: usize) -> Result<(), Refusal>
    ensures { result ≡ checked_as (lent_first n s index area order.now) }
{
    if geometry_bad(n, s, area) {
        return Err(Refusal::Geometry);
    }
    if !cells_good(index) {
        return Err(Refusal::Cells);
    }
    if order_bad(n, order) {
        return Err(Refusal::BadOrder);
    }
    Ok(())
}

// Whether the highest digest number is 0, or more than one slot has it.
fn number_bad(n: usize, s: usize, area: &[u8], number: DigestNumber) -> bool
    requires { Shape n s area.now }
    ensures { result ≡ either (eqb number.0 0) (ltb 1 (sharing (views_of area.now s) number.0 n)) }
{
    if number.0 == 0 {
        return true;
    }
    shared_number(n, s, area, number)
}

// 17, of the head's digest: its number and its next version.
fn digest_bad(n: usize, s: usize, area: &[u8], slot: usize, digest: Digest) -> bool
    requires { Shape n s area.now × (slot < n) }
    ensures { result ≡ digest_bad (views_of area.now s) n (record { slot = slot; digest = digest }) }
{
    let number = digest.number;
    let next = digest.next;
    if number_bad(n, s, area, number) {
        return true;
    }
    next.0 == 0
}

// 17, 24 and 25, of the head's digest (02, R-8).
fn check_digest(n: usize, s: usize, area: &[u8], slot: usize, digest: Digest) -> Result<(), Refusal>
    requires { Shape n s area.now × (slot < n) }
    ensures { result ≡ checked_as
        (first_cause (digest_causes (views_of area.now s) n (record { slot = slot; digest = digest }))) }
{
    if digest_bad(n, s, area, slot, digest) {
        return Err(Refusal::BadDigest);
    }
    if !map_good(n as u32, slot as u32, digest.map) {
        return Err(Refusal::BadMap);
    }
    if names_no_digest(n, s, area, digest.map) {
        return Err(Refusal::MapNoDigest);
    }
    Ok(())
}

// 28, under a head of an edition. The conversion of images asks for a log of that edition alone; recovery and the read by scan take
// slots of an earlier one (02, R-13).
fn editions_bad(single: bool, edition: Edition, n: usize, s: usize, area: &[u8], map: u32) -> bool
    requires { Shape n s area.now }
    ensures { result ≡ editions_bad single edition (views_of area.now s) (named map) n }
{
    if single {
        return names_other_edition(edition, n, s, area, map);
    }
    names_later_edition(edition, n, s, area, map)
}

// 28, 18 and 19, under a head whose digest is good. The edition is the head's (02, R-11).
fn look_through(
    single: bool,
    n: usize,
    s: usize,
    area: &[u8],
    slot: usize,
    digest: Digest,
) -> Result<Image, Refusal>
    requires { Shape n s area.now
        × (first_cause (digest_causes (views_of area.now s) n (record { slot = slot; digest = digest })) ≡ none) }
    ensures { result ≡ image_under single (views_of area.now s) n (record { slot = slot; digest = digest }) }
{
    let map = digest.map;
    let edition = edition_of(cut(s, area, slot));
    if editions_bad(single, edition, n, s, area, map) {
        return Err(Refusal::MixedEditions);
    }
    let Some(passed) = survey(n, s, area, map) else {
        return Err(Refusal::DamagedLog);
    };
    if version_shared(n, s, area, map, passed.apart) {
        return Err(Refusal::SharedVersion);
    }
    let highest = passed.highest;
    Ok(Image {
        edition,
        slot,
        digest,
        highest,
    })
}

// 17, 24, 25, 28, 18 and 19, under a head that was found.
fn look_under(
    single: bool,
    n: usize,
    s: usize,
    area: &[u8],
    slot: usize,
    digest: Digest,
) -> Result<Image, Refusal>
    requires { Shape n s area.now × (slot < n) }
    ensures { result ≡ image_under single (views_of area.now s) n (record { slot = slot; digest = digest }) }
{
    check_digest(n, s, area, slot, digest)?;
    look_through(single, n, s, area, slot, digest)
}

// 16, 17, 24, 25, 28, 18 and 19, which look at the image alone. `single` asks that the whole log is of the head's edition.
pub fn look_at(single: bool, n: usize, s: usize, area: &[u8]) -> Result<Image, Refusal>
    requires { Shape n s area.now }
    ensures { result ≡ image_of single (views_of area.now s) n }
{
    match find_head(n, s, area) {
        None => Err(Refusal::NoDigest),
        Some(head) => look_under(single, n, s, area, head.slot, head.digest),
    }
}

// The next version: what the digest says, unless the log has a version that is as high.
fn next_version(next: Version, highest: Version) -> Version
    requires { highest.0 < 18446744073709551615 }
    ensures { result ≡ record { 0 = max next.0 (highest.0 + 1) } }
{
    if next.0 < highest.0 + 1 {
        return Version(highest.0 + 1);
    }
    next
}

// The record of a head.
fn record_of(
    edition: Edition,
    n: u32,
    s: u32,
    m: u32,
    area: &[u8],
    slot: usize,
    digest: Digest,
    highest: Version,
    keys: u32,
    counts: [u32; 32],
) -> Record
    requires { (slot * s + s ≤ length area.now) × (highest.0 < 18446744073709551615) × (s ≤ 2048) × (slot < 32) }
    ensures { result ≡ record_with edition n s m area.now slot digest highest keys counts }
{
    let number = digest.number;
    let end = end_of(edition, cut(s as usize, area, slot));
    let next = next_version(digest.next, highest);
    Record {
        slots: n,
        size: s,
        cells: m,
        edition,
        switched: false,
        head: slot as u32,
        end: end as u32,
        digest: number,
        map: digest.map,
        next,
        keys,
        counts,
        pending: Pending::Idle,
    }
}

// A refusal stands beside the blank record.
fn refused(cause: Refusal) -> Recovery
    ensures { result ≡ refused_with cause }
{
    Answered {
        answer: Err(cause),
        rec: blank(),
    }
}

// Recovery once what is lent is checked: the index is not touched before the whole log is read.
fn recover_image(n: u32, s: u32, order: &[u8], area: &[u8], index: &mut [u32]) -> Recovery
    requires { lent_first n s (length index.old) (length area.now) order.now ≡ none }
    ensures { RecoverPromise (image_layout n s area.now) n s order.now area.now index.old index.new result }
{
    match look_at(false, n as usize, s as usize, area) {
        Err(cause) => refused(cause),
        Ok(image) => {
            let map = image.digest.map;
            match build(area, index, order, s as usize, map) {
                None => refused(Refusal::TooManyKeys),
                Some(keys) => Answered {
                    answer: Ok(()),
                    rec: record_of(
                        image.edition,
                        n,
                        s,
                        index.len() as u32,
                        area,
                        image.slot,
                        image.digest,
                        image.highest,
                        keys as u32,
                        count(s, area, index),
                    ),
                },
            }
        }
    }
}

// Recovery: 1, 2, 15, 16, 17, 24, 25, 28, 18, 19, 20.
pub fn recover(n: u32, s: u32, order: &[u8], area: &[u8], index: &mut [u32]) -> Recovery
    ensures { RecoverPromise (image_layout n s area.now) n s order.now area.now index.old index.new result }
{
    match check_lent(n, s, order, area.len(), index.len()) {
        Err(cause) => refused(cause),
        Ok(()) => recover_image(n, s, order, area, index),
    }
}
