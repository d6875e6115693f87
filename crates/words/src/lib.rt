// The store record as words: what crosses to a firmware, which lends the words and keeps them from call to call.
#![tactic(auto)]

ghost use Rattle.std.specs.Prelude.{◌+◌, ◌*◌, ◌≤◌, ◌≡◌, true, [], ◌∷◌, length};
ghost use Rattle.std.proofs.lemmas.List.Edits.{sets};
ghost use Rattle.segment.specs.Choice.{both};
ghost use Rattle.segment.specs.Layout.{number_of_layout};
ghost use Rattle.record.specs.Answers.{bare};
ghost use Rattle.record.specs.Range.{fits_lent};
ghost use Rattle.record.specs.RangeLaws.{numbers_good};
ghost use Rattle.words.specs.Words.{record_words, number_words, pending_words, zeros, edition_fits, edition_of, pending_fits, pending_of, words_of, counts_in, record_in, is_record, decoded};
ghost use Rattle.words.specs.WordLaws.{left_fits};

use record::range::{between, counts_good, lengths_own, numbers_good};
use record::{Pending, Record, blank};
use segment::layout::digest_size;
use segment::{DigestNumber, Edition, Version};

// How many words a record takes. A firmware lends a slice, which may be longer, so the calls take no array of that length.
pub const WORDS: usize = 49;

// The words of S, of M, of the edition, of the switch, and of the pending operation's tag and stores left.
pub const SIZE: usize = 1;

pub const CELLS: usize = 2;

pub const EDITION: usize = 10;

pub const SWITCH: usize = 11;

pub const TAG: usize = 12;

pub const LEFT: usize = 16;

// The word of the first count.
pub const COUNTS: usize = 17;

// Whether words are a record, and the record; the blank one where they are not.
// No `Option`: `Demand3` and `held_by` of crate `exported` speak of `(decoded words).rec` at all words.
#[derive(Clone, Copy)]
pub struct Decoded {
    pub ok: bool,
    pub rec: Record,
}

// The five words of a pending operation. The tags 0 to 4 are numbers of the C interface.
fn put_pending(words: &mut [u32], tag: u32, slot: u32, victims: u32, bytes: u32, left: u32)
    requires { record_words ≤ length words.old }
    ensures { words.new ≡ sets words.old 12 (tag ∷ slot ∷ victims ∷ bytes ∷ left ∷ []) }
{
    words[12] = tag;
    words[13] = slot;
    words[14] = victims;
    words[15] = bytes;
    words[16] = left;
}

// The pending operation alone: what a start writes on the words as they are, and with it nothing else of the record.
pub fn encode_pending(p: Pending, words: &mut [u32])
    requires { record_words ≤ length words.old }
    ensures { words.new ≡ sets words.old 12 (pending_words p) }
{
    match p {
        Pending::Idle => put_pending(words, 0, 0, 0, 0, 0),
        Pending::Append { length, left } => put_pending(words, 1, 0, 0, length, left),
        Pending::NewHead { slot, length, left } => put_pending(words, 2, slot, 0, length, left),
        Pending::Clean {
            slot,
            victims,
            length,
            left,
        } => put_pending(words, 3, slot, victims, length, left),
        Pending::Forget {
            slot,
            victims,
            length,
            left,
        } => put_pending(words, 4, slot, victims, length, left),
    }
}

// The number of an edition. No `From`, which would have to stand in crate `segment`, far from `edition_of` below.
fn edition_number(edition: Edition) -> u32
    ensures { result ≡ number_of_layout edition }
{
    match edition {
        Edition::First => 1,
        Edition::Second => 2,
    }
}

// The numbers of a record before its pending operation, and behind them that of its edition and whether the store is switched.
fn put_numbers(rec: Record, words: &mut [u32])
    requires { record_words ≤ length words.old }
    ensures { words.new ≡ sets words.old 0 (number_words rec) }
{
    let number = rec.digest;
    let next = rec.next;
    let edition = rec.edition;
    let switched = rec.switched;
    words[0] = rec.slots;
    words[1] = rec.size;
    words[2] = rec.cells;
    words[3] = rec.head;
    words[4] = rec.end;
    words[5] = number.0;
    words[6] = rec.map;
    words[7] = (next.0 % 4294967296) as u32;
    words[8] = (next.0 / 4294967296) as u32;
    words[9] = rec.keys;
    words[EDITION] = edition_number(edition);
    words[SWITCH] = u32::from(switched);
}

// All of `from`, from a place of `to` on.
fn copy_words(to: &mut [u32], at: usize, from: &[u32])
    requires { at + length from.now ≤ length to.old }
    ensures { to.new ≡ sets to.old at from.now }
{
    for (i, word) in from.iter().enumerate() {
        to[at + i] = *word;
    }
}

// The record into the first words of what is lent; the others stay. An array's length is no part of its value in a contract, so it is
// said beside.
pub fn encode(rec: Record, words: &mut [u32])
    requires { record_words ≤ length words.old }
    ensures put { words.new ≡ sets words.old 0 (words_of rec) }
    ensures long { length rec.counts ≡ 32 }
{
    let pending = rec.pending;
    let counts = rec.counts;
    put_numbers(rec, words);
    encode_pending(pending, words);
    copy_words(words, COUNTS, &counts);
}

// Whether two words are 0.
fn zeros(a: u32, b: u32) -> bool
    ensures { result ≡ zeros a b }
{
    a == 0 && b == 0
}

// Whether a word is the number of an edition.
pub fn edition_fits(number: u32) -> bool
    ensures { result ≡ edition_fits number }
{
    1 <= number && number <= 2
}

// The edition of that number; the first where there is none.
pub fn edition_of(number: u32) -> Edition
    ensures { result ≡ edition_of number }
{
    match number {
        2 => Edition::Second,
        _ => Edition::First,
    }
}

// Whether five words are those of a pending operation: words that it has no use for are 0.
fn pending_fits(tag: u32, slot: u32, victims: u32, length: u32, left: u32) -> bool
    ensures { result ≡ pending_fits tag slot victims length left }
{
    match tag {
        0 => zeros(slot, victims) && zeros(length, left),
        1 => zeros(slot, victims),
        2 => victims == 0,
        3 => true,
        4 => true,
        _ => false,
    }
}

// The next version from the two halves in which it crosses.
fn next_of(low: u32, high: u32) -> Version
    ensures { result ≡ record { 0 = low + 4294967296 * high } }
{
    Version(low as u64 + 4294967296 * (high as u64))
}

fn pending_of(tag: u32, slot: u32, victims: u32, length: u32, left: u32) -> Pending
    ensures { result ≡ pending_of tag slot victims length left }
{
    match tag {
        1 => Pending::Append { length, left },
        2 => Pending::NewHead { slot, length, left },
        3 => Pending::Clean {
            slot,
            victims,
            length,
            left,
        },
        4 => Pending::Forget {
            slot,
            victims,
            length,
            left,
        },
        _ => Pending::Idle,
    }
}

// The present bytes of the 32 slots.
fn counts_in(words: &[u32]) -> [u32; 32]
    requires { record_words ≤ length words.now }
    ensures { result ≡ counts_in words.now }
{
    let mut counts = [0; 32];
    copy_words(&mut counts, 0, &words[COUNTS..WORDS]);
    counts
}

// The record that the first words say, with no present bytes: for tests and calls that do not look at them, so that the 32 numbers
// need not be carried along.
pub fn front_in(words: &[u32]) -> Record
    requires { record_words ≤ length words.now }
    ensures { result ≡ bare (record_in words.now) }
{
    let edition = edition_of(words[EDITION]);
    let pending = pending_of(words[12], words[13], words[14], words[15], words[16]);
    Record {
        slots: words[0],
        size: words[1],
        cells: words[2],
        edition,
        switched: words[SWITCH] == 1,
        head: words[3],
        end: words[4],
        digest: DigestNumber(words[5]),
        map: words[6],
        next: next_of(words[7], words[8]),
        keys: words[9],
        counts: [0; 32],
        pending,
    }
}

// The record that the first words say, where there are enough of them.
fn record_in(words: &[u32]) -> Record
    requires { record_words ≤ length words.now }
    ensures { result ≡ record_in words.now }
{
    let mut rec = front_in(words);
    rec.counts = counts_in(words);
    rec
}

// Whether the words lent are those of a record.
fn is_record(words: &[u32]) -> bool
    ensures { result ≡ is_record words.now }
{
    if words.len() < WORDS {
        return false;
    }
    if !edition_fits(words[EDITION]) {
        return false;
    }
    words[SWITCH] <= 1 && pending_fits(words[12], words[13], words[14], words[15], words[16])
}

pub fn decode(words: &[u32]) -> Decoded
    ensures { result ≡ decoded words.now }
{
    if is_record(words) {
        let rec = record_in(words);
        return Decoded { ok: true, rec };
    }
    let rec = blank();
    Decoded { ok: false, rec }
}

// Whether the stores left can be so, by the tag of the pending operation.
fn left_fits(size: u32, tag: u32, left: u32) -> bool
    requires { size ≤ 2048 }
    ensures { result ≡ left_fits size tag left }
{
    if tag == 0 {
        return true;
    }
    between(1, size as usize + 1, left as usize)
}

// Whether all numbers before the present bytes are in range. The operation is not taken out of its words for that.
fn front_fits(front: Record, tag: u32, left: u32) -> bool
    ensures { result ≡ both (numbers_good front.edition front) (left_fits front.size tag left) }
{
    numbers_good(front) && left_fits(front.size, tag, left)
}

// The test of 4 that needs no look at the log, on a record where it stands: the 32 numbers are looked at among the words. Their bound
// goes by the shortest digest, the first edition's, whatever the head's is (02, R-13).
pub fn fits(words: &[u32], area: usize, index: usize) -> bool
    ensures { result ≡ fits_lent (decoded words.now).rec.edition (decoded words.now).rec area index }
{
    if !is_record(words) {
        return false;
    }
    let front = front_in(words);
    if !front_fits(front, words[TAG], words[LEFT]) {
        return false;
    }
    if !lengths_own(front, area, index) {
        return false;
    }
    counts_good(
        &words[COUNTS..WORDS],
        front.size - digest_size(Edition::First) as u32,
    )
}
