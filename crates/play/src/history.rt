// The written history, an event at a time.
ghost use Rattle.std.specs.Prelude.{◌≡◌, ◌<◌};

use crate::book::Value;
use crate::lines::Output;
use crate::memory::Memory;
use crate::operations::Played;
use crate::{lines, memory, operations};

#[derive(Clone, Copy)]
pub enum Event {
    // A heading with the number of a case.
    Case(u32),
    // A new store, in an area of old bytes.
    Format,
    // The store of case 8.
    Spread,
    // A key's number; length, first byte and rise of its value.
    Write(usize, usize, u8, u8),
    Delete(usize),
    // The victims.
    Clean(u32),
    // The question which two slots to join, and the cleaning of these.
    Join,
    // The supply fails after so many stores of the operation that comes next.
    Fails(u32),
    // A cut with nothing pending, and a recovery.
    Recover,
}

// How many events there are.
pub const EVENTS: usize = 158;

// The history stands in parts: the check of one table of all events takes far longer.

// 01's cases, with the cuts of case 3.
const CASES: [Event; 28] = [
    Event::Case(2),
    Event::Write(0, 8, 0x11, 0),
    Event::Case(4),
    Event::Delete(0),
    Event::Case(5),
    Event::Clean(0b1),
    Event::Recover,
    Event::Case(6),
    Event::Format,
    Event::Write(0, 56, 1, 1),
    Event::Write(1, 56, 2, 1),
    Event::Write(0, 8, 3, 1),
    Event::Write(1, 8, 4, 1),
    Event::Write(2, 8, 5, 1),
    Event::Write(3, 8, 6, 1),
    Event::Delete(0),
    Event::Delete(1),
    Event::Delete(2),
    Event::Recover,
    Event::Case(7),
    Event::Format,
    Event::Write(0, 7, 0x11, 0),
    Event::Write(0, 8, 0x11, 0),
    Event::Case(8),
    Event::Spread,
    Event::Clean(0b10),
    Event::Spread,
    Event::Clean(0b11),
];

// Keys overwritten and deleted, and an entry that does not fit the head.
const CHANGES: [Event; 30] = [
    Event::Format,
    Event::Delete(0),
    Event::Write(0, 56, 0x20, 1),
    Event::Write(1, 24, 0x60, 3),
    Event::Write(0, 8, 0x80, 1),
    Event::Write(2, 56, 0x90, 1),
    Event::Write(3, 56, 0xd0, 1),
    Event::Delete(0),
    // The tombstone stays, since older objects of its key stand in slot 0.
    Event::Clean(0b10),
    Event::Fails(40),
    Event::Write(0, 56, 0x10, 2),
    Event::Delete(1),
    // Both tombstones go, with every object of their keys.
    Event::Fails(148),
    Event::Clean(0b101),
    Event::Clean(0b101),
    // The search for a free slot goes round the end; then only one is free, and another new head is refused.
    Event::Write(0, 56, 0x30, 1),
    Event::Fails(81),
    Event::Write(1, 56, 0x40, 1),
    Event::Write(1, 56, 0x50, 1),
    Event::Write(0, 56, 0x60, 1),
    Event::Write(1, 56, 0x70, 1),
    Event::Write(2, 56, 0x80, 1),
    Event::Write(0, 56, 0x90, 1),
    Event::Write(1, 56, 0xa0, 1),
    Event::Write(3, 56, 0xb0, 1),
    // What all slots would keep is too much, slot 2 is not in the log, and slot 0, which is not the head, has nothing to keep.
    Event::Clean(0b1011),
    Event::Clean(0b100),
    Event::Clean(0b1),
    Event::Write(3, 56, 0xc0, 1),
    Event::Recover,
];

// A store filled until writes are refused for want of room. Each key is then deleted by a cleaning of the slot with its live
// object, the head here, and what that frees is filled again; key 3 has no object outside, and its tombstone is not needed.
const FILLED: [Event; 38] = [
    Event::Format,
    Event::Write(0, 56, 0x01, 1),
    Event::Write(1, 56, 0x02, 1),
    Event::Write(2, 56, 0x03, 1),
    Event::Write(0, 56, 0x04, 1),
    Event::Write(1, 56, 0x05, 1),
    Event::Write(2, 56, 0x06, 1),
    Event::Write(3, 56, 0x07, 1),
    Event::Write(0, 56, 0x08, 1),
    Event::Write(1, 56, 0x09, 1),
    Event::Write(2, 8, 0x0a, 1),
    Event::Write(3, 8, 0x0b, 1),
    Event::Write(3, 8, 0x0c, 1),
    Event::Delete(0),
    Event::Write(1, 56, 0x0d, 1),
    Event::Write(2, 8, 0x0e, 1),
    Event::Write(3, 8, 0x0f, 1),
    Event::Write(2, 8, 0x10, 1),
    Event::Write(1, 8, 0x11, 1),
    Event::Fails(60),
    Event::Delete(1),
    Event::Delete(1),
    Event::Write(2, 24, 0x12, 1),
    Event::Write(3, 24, 0x13, 1),
    Event::Write(2, 24, 0x14, 1),
    Event::Write(3, 24, 0x15, 1),
    Event::Write(2, 24, 0x16, 1),
    Event::Write(3, 8, 0x17, 1),
    Event::Delete(2),
    Event::Write(3, 56, 0x18, 1),
    Event::Write(3, 56, 0x19, 1),
    Event::Write(3, 8, 0x1a, 1),
    Event::Write(3, 8, 0x1b, 1),
    Event::Write(3, 8, 0x1c, 1),
    Event::Delete(3),
    Event::Recover,
    Event::Write(0, 8, 0x1d, 1),
    Event::Recover,
];

// All slots that a log may have are in use, and keys are overwritten for long: a write that meets 12 is made again when
// two slots are joined.
const JOINS: [Event; 31] = [
    Event::Format,
    Event::Write(0, 56, 0x20, 1),
    Event::Write(1, 120, 0x21, 1),
    Event::Write(2, 24, 0x22, 1),
    Event::Write(3, 56, 0x23, 1),
    Event::Write(0, 56, 0x24, 1),
    Event::Write(1, 120, 0x25, 1),
    Event::Write(2, 24, 0x26, 1),
    Event::Write(3, 56, 0x27, 1),
    Event::Write(0, 56, 0x28, 1),
    Event::Join,
    Event::Write(0, 56, 0x28, 1),
    Event::Write(1, 120, 0x29, 1),
    Event::Write(2, 24, 0x2a, 1),
    Event::Write(3, 56, 0x2b, 1),
    Event::Write(0, 56, 0x2c, 1),
    Event::Join,
    Event::Write(0, 56, 0x2c, 1),
    Event::Write(1, 120, 0x2d, 1),
    Event::Write(2, 24, 0x2e, 1),
    Event::Write(3, 56, 0x2f, 1),
    Event::Join,
    Event::Write(3, 56, 0x2f, 1),
    Event::Write(0, 56, 0x30, 1),
    Event::Write(1, 120, 0x31, 1),
    Event::Write(2, 24, 0x32, 1),
    Event::Write(3, 56, 0x33, 1),
    Event::Write(0, 56, 0x34, 1),
    Event::Join,
    Event::Write(0, 56, 0x34, 1),
    Event::Write(1, 120, 0x35, 1),
];

// The same for longer.
const MORE_JOINS: [Event; 31] = [
    Event::Write(2, 24, 0x36, 1),
    Event::Write(3, 56, 0x37, 1),
    Event::Write(0, 56, 0x38, 1),
    Event::Join,
    Event::Write(0, 56, 0x38, 1),
    Event::Write(1, 120, 0x39, 1),
    Event::Write(2, 24, 0x3a, 1),
    Event::Write(3, 56, 0x3b, 1),
    Event::Join,
    Event::Write(3, 56, 0x3b, 1),
    Event::Write(0, 56, 0x3c, 1),
    Event::Write(1, 120, 0x3d, 1),
    Event::Join,
    Event::Write(1, 120, 0x3d, 1),
    Event::Write(2, 24, 0x3e, 1),
    Event::Write(3, 56, 0x3f, 1),
    Event::Write(0, 56, 0x40, 1),
    Event::Join,
    Event::Write(0, 56, 0x40, 1),
    Event::Write(1, 120, 0x41, 1),
    Event::Write(2, 24, 0x42, 1),
    Event::Write(3, 56, 0x43, 1),
    Event::Join,
    Event::Write(3, 56, 0x43, 1),
    Event::Write(0, 56, 0x44, 1),
    Event::Write(1, 120, 0x45, 1),
    Event::Join,
    Event::Write(1, 120, 0x45, 1),
    Event::Write(2, 24, 0x46, 1),
    Event::Write(3, 56, 0x47, 1),
    Event::Recover,
];

const _: () = prove!(
    CASES.len() + CHANGES.len() + FILLED.len() + JOINS.len() + MORE_JOINS.len() == EVENTS
);

// The parts in their order.
pub const PARTS: [&[Event]; 5] = [&CASES, &CHANGES, &FILLED, &JOINS, &MORE_JOINS];

fn failing(played: Played, fails: u32) -> Played
    ensures { result ≡ record { rec = played.rec; book = played.book; fails = fails } }
{
    let rec = played.rec;
    let book = played.book;
    Played { rec, book, fails }
}

fn heading<R: Print>(out: &mut Output<'_, R>, played: Played, case: u32) -> Played
    ensures { result ≡ played }
{
    lines::field(out, b"case ", case);
    lines::text(out, b"\n");
    played
}

// What an event does.
fn happens<R: Print>(
    out: &mut Output<'_, R>,
    event: Event,
    played: Played,
    lent: &mut Memory,
) -> Played {
    match event {
        Event::Case(n) => heading(out, played, n),
        Event::Format => memory::fresh(out, lent),
        Event::Spread => memory::spread(out, lent),
        Event::Write(number, length, first, rise) => {
            let value = Value {
                length,
                first,
                rise,
            };
            operations::write_key(out, played, lent, number, value)
        }
        Event::Delete(number) => operations::delete_key(out, played, lent, number),
        Event::Clean(victims) => operations::clean_slots(out, played, lent, victims),
        Event::Join => operations::join_slots(out, played, lent),
        Event::Fails(n) => failing(played, n),
        Event::Recover => memory::power_on(out, lent, played.book),
    }
}

// What the events of a part do, one after the other.
pub fn goes_on<R: Print>(
    out: &mut Output<'_, R>,
    part: &[Event],
    played: Played,
    lent: &mut Memory,
) -> Played {
    let mut played = played;
    for event in part {
        played = happens(out, *event, played, lent);
    }
    played
}
