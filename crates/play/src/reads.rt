// What reads and a recovery after a cut answer, compared with the book.
ghost use Rattle.std.specs.Prelude.{◌≡◌};
ghost use Rattle.play.specs.Answers.{read_says};
ghost use Rattle.play.specs.Values.{bytes_are};

use crate::book::{Book, Held, Value};
use crate::{book, memory};
use record::{Present, Record, Refusal};
use segment::Edition;
use segment::layout::object_kind;
use store::{read, read_value, recover};

// Whether these are the bytes of a value.
fn bytes_are(bytes: &[u8], value: Value) -> bool
    ensures { result ≡ bytes_are bytes.now value }
{
    if bytes.len() != value.length {
        return false;
    }
    let mut due = value.first;
    for byte in bytes {
        if *byte != due {
            return false;
        }
        due = due.wrapping_add(value.rise);
    }
    true
}

// Whether a read's answer is the one for what the key has.
fn answer_is(answer: Result<Present, Refusal>, held: Held) -> bool
    ensures { result ≡ read_says answer held }
{
    let value = held.value;
    let has = held.version;
    match answer {
        Ok(present) => {
            present.version.0 == has.0 && present.kind == object_kind(Edition::First, value.length)
        }
        Err(cause) => has.0 == 0 && record::number(cause) == 8,
    }
}

// Whether both reads of a key give what it has.
fn reads_as(rec: Record, area: &[u8], index: &[u32], number: usize, held: Held) -> bool {
    let key = book::key(number);
    let value = held.value;
    let tables = memory::ALL_TABLES;
    if !bytes_are(read_value(rec, area, index, tables, key), value) {
        return false;
    }
    let reading = read(rec, area, index, tables, key);
    let answer = reading.answer;
    answer_is(answer, held)
}

// Whether the next version and the reads of every key are the book's.
pub fn agrees(rec: Record, area: &[u8], index: &[u32], book: Book) -> bool {
    let next = rec.next;
    let due = book.next;
    let held = book.held;
    if next.0 != due.0 {
        return false;
    }
    for (number, has) in held.iter().enumerate() {
        if !reads_as(rec, area, index, number, *has) {
            return false;
        }
    }
    true
}

// Whether recovery of what a cut leaves, with an index of its own and the slots in another order, gives the book.
fn cut_agrees(area: &[u8], book: Book) -> bool {
    let mut index = memory::SPOILT;
    let recovery = recover(
        memory::SLOTS,
        memory::SIZE,
        b"\x02\x00\x03\x01",
        area,
        &mut index,
    );
    let answer = recovery.answer;
    let rec = recovery.rec;
    match answer {
        Ok(()) => agrees(rec, area, &index, book),
        Err(_) => false,
    }
}

// Whether the reads with the record as it is, and those after a cut, are the book's.
pub fn both_agree(rec: Record, area: &[u8], index: &[u32], book: Book) -> bool {
    if !agrees(rec, area, index, book) {
        return false;
    }
    cut_agrees(area, book)
}
