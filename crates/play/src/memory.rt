// The memory that is lent: what it holds before a format and after a cut, and the bytes of a value.
ghost use Rattle.std.specs.Prelude.{◌≡◌};
ghost use Rattle.play.specs.Book.{empty_book, powered_on};
ghost use Rattle.play.specs.Values.{rising};

use crate::book::{Book, Value};
use crate::lines::Output;
use crate::operations::Played;
use crate::{book, lines, reads};
use record::Tables;
use segment::Version;
use segment::writer::copy_into;
use store::{format, recover};

// N and S.
pub const SLOTS: u32 = 4;

pub const SIZE: u32 = 256;

// The store's area and index, and the work buffer of an operation.
#[derive(Drop)]
pub struct Memory {
    pub area: [u8; 1024],
    pub index: [u32; 16],
    pub work: [u8; 256],
}

// A caller that reaches every table.
pub const ALL_TABLES: Tables = Tables {
    first: 0,
    last: 65535,
};

// What an index may hold after a cut.
pub const SPOILT: [u32; 16] = [0xdead_beef; 16];

// How many bytes the longest value has.
pub const LONGEST: usize = 120;

// The bytes of a value, and more where it is not the longest.
pub fn value_bytes(value: Value) -> [u8; LONGEST]
    ensures { result ≡ rising 120 value.first value.rise }
{
    let mut bytes = [0; LONGEST];
    let mut byte = value.first;
    for place in &mut bytes {
        *place = byte;
        byte = byte.wrapping_add(value.rise);
    }
    bytes
}

// A recovery after the supply failed, which lost the index.
pub fn power_on<R: Print>(out: &mut Output<'_, R>, lent: &mut Memory, book: Book) -> Played
    ensures on { result ≡ powered_on lent.new.area book }
    ensures kept { (lent.new.area ≡ lent.old.area) × (lent.new.work ≡ lent.old.work) }
{
    lent.index = SPOILT;
    let recovery = recover(
        SLOTS,
        SIZE,
        b"\x00\x01\x02\x03",
        &lent.area,
        &mut lent.index,
    );
    let rec = recovery.rec;
    let next = rec.next;
    let agrees = reads::agrees(rec, &lent.area, &lent.index, book);
    lines::version_compared(out, b"recovery: next version ", next, agrees);
    Played {
        rec,
        book,
        fails: 0,
    }
}

// An area of old bytes, formatted and recovered. The contract leaves free what the area then holds.
pub fn fresh<R: Print>(out: &mut Output<'_, R>, lent: &mut Memory) -> Played
    ensures on { result ≡ powered_on lent.new.area (empty_book (record { 0 = 1 })) }
    ensures kept { lent.new.work ≡ lent.old.work }
{
    lent.area = [0xaa; 1024];
    // Nothing refuses a format of these lengths.
    let _ = format(SLOTS, SIZE, 1, &mut lent.area);
    lines::bytes(out, b"format:", &lent.area, 14);
    power_on(out, lent, book::empty(Version(1)))
}

// Case 8: an old object of a key in slot 0, a newer one and its tombstone in the head, slot 1. The contract leaves free what
// the area then holds.
pub fn spread<R: Print>(out: &mut Output<'_, R>, lent: &mut Memory) -> Played
    ensures on { result ≡ powered_on lent.new.area (empty_book (record { 0 = 4 })) }
    ensures kept { lent.new.work ≡ lent.old.work }
{
    lent.area = [0xff; 1024];
    copy_into(
        &mut lent.area,
        0,
        b"\x05\x01\0\0\0\x01\0\0\0\x01\0\0\0\x01\x07\0\x09\0\0\0\x01\0\0\0\x11\x11\x11\x11\x11\x11\x11\x11\0",
    );
    copy_into(
        &mut lent.area,
        256,
        b"\x05\x02\0\0\0\x03\0\0\0\x02\0\0\0\x01\x07\0\x09\0\0\0\x02\0\0\0\x12\x12\x12\x12\x12\x12\x12\x12\x04\x07\0\x09\0\0\0\x03\0\0\0\0",
    );
    power_on(out, lent, book::empty(Version(4)))
}
