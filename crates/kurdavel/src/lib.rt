// The store for a firmware in C or Rust (include/kurdavel.h): its calls and the value reads, over slices and numbers, which the crate
// `kurdavel_c` exports under the same names.
// The reads, the start of a write, the step, the next store told, the switch and the question for the emptiest slot go by the record's
// words as they are; the others decode the record from them, make the call, and encode what it hands back. Nothing is required of the
// caller's values: words that are no record are refused with 4. The answer is 0 or the refusal's number, as the C interface has it.
#![tactic(auto)]

ghost use Rattle.std.specs.Prelude.{◌≤◌, ◌≡◌, true, length};
ghost use Rattle.model.specs.Operations.{write, delete, clean};
ghost use Rattle.model.specs.Refused.{freely, reaching};
ghost use Rattle.position.specs.Convert.{from_float, to_float, ConversionCrossed};
ghost use Rattle.record.specs.declared.Expected.{Expected};
ghost use Rattle.record.specs.Range.{in_range};
ghost use Rattle.words.specs.Words.{record_words, decoded};
ghost use Rattle.kurdavel.specs.Crossing.{FormatCrossed, RecoverCrossed, ReadCrossed, ValueCrossed, StartCrossed, kept_words, Handed};
ghost use Rattle.kurdavel.specs.Joining.{JoinCrossed};

use index::search::search;
use position::{from_float, hand_over, to_float};
use record::reach::holds_table;
use record::{Expected, Record, Start, Tables, number};
use recovery::read::{look_at, told};
use segment::layout::{edition_of_kind, head_size, object_kind};
use segment::{Key, Version};
use store::{clean, delete, format, join, recover};
use words::{CELLS, SIZE, WORDS, decode, encode, encode_pending, fits, front_in};
use writing::causes::check_fitting;
use writing::lay::lay_entry;

pub mod convert;
pub mod fewest;
pub mod scan;
pub mod step;
pub mod switch;

// Whether the words are those of a record in range, where no lengths are lent: those stand in for them which the record itself says.
fn in_range(words: &[u32]) -> bool
    ensures said { result ≡ in_range (decoded words.now).rec.edition (decoded words.now).rec }
    ensures long { result ≡ true → record_words ≤ length words.now }
{
    if words.len() < WORDS {
        return false;
    }
    let area = words[0] as usize * words[SIZE] as usize;
    fits(words, area, words[CELLS] as usize)
}

pub fn kurdavel_format(slots: u32, size: u32, edition: u32, area: &mut [u8]) -> u32
    ensures { FormatCrossed edition slots size area.old area.new result }
{
    match format(slots, size, edition, area) {
        Ok(()) => 0,
        Err(cause) => number(cause),
    }
}

pub fn kurdavel_recover(
    slots: u32,
    size: u32,
    order: &[u8],
    area: &[u8],
    index: &mut [u32],
    words: &mut [u32],
) -> u32
    ensures { RecoverCrossed slots size order.now area.now index.old index.new
        words.old words.new result }
{
    let short = words.len() < WORDS;
    if short {
        return 4;
    }
    let found = recover(slots, size, order, area, index);
    let answer = found.answer;
    match answer {
        Err(cause) => number(cause),
        Ok(()) => {
            let rec = found.rec;
            encode(rec, words);
            0
        }
    }
}

// Both reads are made of the parts of `find`, on the words as they are: the record is tested and not copied, and the compiler puts the
// search in line in both. What is told of the answer, here and in the reads by scan, is three lines each time: a function for it would
// have a contract longer than they are.
pub fn kurdavel_read(
    words: &[u32],
    area: &[u8],
    index: &[u32],
    first: u16,
    last: u16,
    table: u16,
    key: u32,
    version: &mut u64,
    kind: &mut u32,
) -> u32
    ensures { ReadCrossed words.now area.now index.now (record { first = first; last = last })
        (record { table = table; key = key }) version.new kind.new result }
{
    *version = 0;
    *kind = 0;
    if !fits(words, area.len(), index.len()) {
        return 4;
    }
    if !holds_table(Tables { first, last }, table) {
        return 22;
    }
    let found = search(area, index, Key { table, key });
    let answer = told(look_at(area, index, found));
    match answer {
        Err(cause) => number(cause),
        Ok(present) => {
            *version = present.version.0;
            *kind = present.kind as u32;
            0
        }
    }
}

pub fn kurdavel_read_value(
    words: &[u32],
    area: &[u8],
    index: &[u32],
    first: u16,
    last: u16,
    table: u16,
    key: u32,
    place: &mut u32,
    bytes: &mut u32,
) -> u32
    ensures { ValueCrossed words.now area.now index.now (record { first = first; last = last })
        (record { table = table; key = key }) place.new bytes.new result }
{
    *place = 0;
    *bytes = 0;
    if !fits(words, area.len(), index.len()) {
        return 4;
    }
    if !holds_table(Tables { first, last }, table) {
        return 22;
    }
    let found = search(area, index, Key { table, key });
    match look_at(area, index, found) {
        Err(refusal) => number(refusal),
        Ok(object) => {
            let head = head_size(edition_of_kind(object.kind));
            *place = (object.place + head) as u32;
            *bytes = (object.length - head) as u32;
            0
        }
    }
}

// The record back into its words, if they were a record's. Flag and record stand beside each other, as `decode` gives them.
fn keep(words: &mut [u32], ok: bool, rec: Record)
    requires { ok ≡ true → record_words ≤ length words.old }
    ensures kept { words.new ≡ kept_words ok words.old rec }
    ensures long { ok ≡ true → length rec.counts ≡ 32 }
{
    if ok {
        encode(rec, words);
    }
}

// What a start hands back: its record, its number of stores if it is accepted, and its answer's number.
fn hand_back(words: &mut [u32], ok: bool, start: Start, stores: &mut u32) -> u32
    requires { ok ≡ true → record_words ≤ length words.old }
    ensures { Handed ok start words.old words.new stores.old stores.new result }
{
    let rec = start.rec;
    let answer = start.answer;
    keep(words, ok, rec);
    match answer {
        Err(cause) => number(cause),
        Ok(count) => {
            *stores = count;
            0
        }
    }
}

// The start of a write, on the words as they are: the record is tested and not copied, and of its words only those of the pending
// operation change.
fn start_write(
    words: &mut [u32],
    area: &[u8],
    index: &[u32],
    work: &mut [u8],
    tables: Tables,
    expected: Expected,
    key: Key,
    value: &[u8],
    stores: &mut u32,
) -> u32
    ensures { StartCrossed (record { tables = tables; expected = expected }) (write key value.now) words.old words.new
        area.now index.now work.old work.new stores.old stores.new result }
{
    if !fits(words, area.len(), index.len()) {
        return 4;
    }
    let front = front_in(words);
    match check_fitting(
        front,
        area,
        index,
        work.len(),
        tables,
        expected,
        key,
        value.len(),
    ) {
        Err(cause) => number(cause),
        Ok(()) => {
            let edition = front.edition;
            let laying = lay_entry(front, work, object_kind(edition, value.len()), key, value);
            let pending = laying.pending;
            encode_pending(pending, words);
            *stores = laying.left;
            0
        }
    }
}

pub fn kurdavel_write(
    words: &mut [u32],
    area: &[u8],
    index: &[u32],
    work: &mut [u8],
    first: u16,
    last: u16,
    table: u16,
    key: u32,
    value: &[u8],
    stores: &mut u32,
) -> u32
    ensures { StartCrossed (reaching (record { first = first; last = last }))
        (write (record { table = table; key = key }) value.now) words.old
        words.new area.now index.now work.old work.new stores.old
        stores.new result }
{
    let tables = Tables { first, last };
    start_write(
        words,
        area,
        index,
        work,
        tables,
        Expected::Any,
        Key { table, key },
        value,
        stores,
    )
}

// A write over the version that the caller expects the key to have, 0 where it expects none.
pub fn kurdavel_write_expecting(
    words: &mut [u32],
    area: &[u8],
    index: &[u32],
    work: &mut [u8],
    first: u16,
    last: u16,
    table: u16,
    key: u32,
    expected: u64,
    value: &[u8],
    stores: &mut u32,
) -> u32
    ensures { StartCrossed (record { tables = record { first = first; last = last }; expected = Expected.Only (record { 0 = expected }) })
        (write (record { table = table; key = key }) value.now) words.old words.new
        area.now index.now work.old work.new stores.old stores.new result }
{
    let only = Expected::Only(Version(expected));
    let tables = Tables { first, last };
    start_write(
        words,
        area,
        index,
        work,
        tables,
        only,
        Key { table, key },
        value,
        stores,
    )
}

pub fn kurdavel_delete(
    words: &mut [u32],
    area: &[u8],
    index: &[u32],
    work: &mut [u8],
    first: u16,
    last: u16,
    table: u16,
    key: u32,
    stores: &mut u32,
) -> u32
    ensures { StartCrossed (reaching (record { first = first; last = last })) (delete (record { table = table; key = key })) words.old words.new area.now
        index.now work.old work.new stores.old stores.new result }
{
    let decoded = decode(words);
    let rec = decoded.rec;
    let tables = Tables { first, last };
    let start = delete(rec, area, index, work, tables, Key { table, key });
    hand_back(words, decoded.ok, start, stores)
}

pub fn kurdavel_clean(
    words: &mut [u32],
    area: &[u8],
    index: &[u32],
    work: &mut [u8],
    victims: u32,
    stores: &mut u32,
) -> u32
    ensures { StartCrossed freely (clean victims) words.old words.new area.now index.now
        work.old work.new stores.old stores.new result }
{
    let decoded = decode(words);
    let rec = decoded.rec;
    let start = clean(rec, area, index, work, victims);
    hand_back(words, decoded.ok, start, stores)
}

// Which two slots to join; both are 0 where it is refused.
pub fn kurdavel_join(
    words: &[u32],
    area: &[u8],
    index: &[u32],
    first: &mut u32,
    second: &mut u32,
) -> u32
    ensures { JoinCrossed words.now area.now index.now first.new second.new result }
{
    *first = 0;
    *second = 0;
    let decoded = decode(words);
    let rec = decoded.rec;
    let joined = join(rec, area, index);
    let answer = joined.answer;
    match answer {
        Err(cause) => number(cause),
        Ok(pair) => {
            *first = pair.first;
            *second = pair.second;
            0
        }
    }
}

// The two conversions of a position (02, R-10) take no store: a value goes in, eight bytes and a number come out.
pub fn kurdavel_from_float(value: &[u8], converted: &mut [u8; 8]) -> u32
    ensures { ConversionCrossed (from_float value.now) converted.new result }
{
    hand_over(from_float(value), converted)
}

pub fn kurdavel_to_float(value: &[u8], converted: &mut [u8; 8]) -> u32
    ensures { ConversionCrossed (to_float value.now) converted.new result }
{
    hand_over(to_float(value), converted)
}
