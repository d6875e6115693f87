// An operation of a history: its start, its steps to the end or to the failing of the supply, and a cut after each of its stores.
// A function that makes calls promises nothing of its answer where their contracts say nothing of records that are not genuine; what
// it answers shows in the output.
ghost use Rattle.std.specs.Prelude.{◌≡◌, ◌==◌, ◌≤◌};
ghost use Rattle.segment.specs.Choice.{pick};
ghost use Rattle.play.specs.Book.{played};
ghost use Rattle.play.specs.Answers.{step_says, work_bytes, first_bad, not_made};

use crate::book::{Book, Value};
use crate::lines::Output;
use crate::memory::Memory;
use crate::{book, lines, memory, reads};
use record::{Pending, Progress, Record, Refusal, Start};
use segment::Version;
use slot_map::with_slot;
use store::{clean, delete, join, step, write};

// The record, the book, and after how many stores of the next operation the supply fails, 0 where it does not (`not_made` counts so).
#[derive(Clone, Copy)]
pub struct Played {
    pub rec: Record,
    pub book: Book,
    pub fails: u32,
}

// What an operation is to do: its version, the book before it and after it, and how many of its stores the supply allows.
#[derive(Clone, Copy)]
struct Due {
    version: Version,
    before: Book,
    after: Book,
    fails: u32,
}

// Whether a step says that so many stores are left, and after the last one the version.
fn told(answer: Result<Progress, Refusal>, left: u32, version: Version) -> bool
    ensures { result ≡ step_says answer left version }
{
    match answer {
        Ok(progress) => match progress {
            Progress::Left(n) => n == left && 0 < left,
            Progress::Done(v) => v.0 == version.0 && left == 0,
        },
        Err(_) => false,
    }
}

// The book when so many stores are left.
fn book_at(left: u32, due: Due) -> Book
    ensures { result ≡ pick (left == 0) due.after due.before }
{
    if left == 0 {
        return due.after;
    }
    due.before
}

// Whether a step after which so many stores are left said so, and the reads are then the book's.
fn step_agrees(
    answer: Result<Progress, Refusal>,
    rec: Record,
    lent: &Memory,
    left: u32,
    due: Due,
) -> bool {
    let version = due.version;
    if !told(answer, left, version) {
        return false;
    }
    reads::both_agree(rec, &lent.area, &lent.index, book_at(left, due))
}

// The first store that differs: the one noted before, or this one.
fn noted(bad: u32, made: u32, agrees: bool) -> u32
    ensures { result ≡ first_bad bad made agrees }
{
    if agrees {
        return bad;
    }
    if bad == 0 {
        return made;
    }
    bad
}

// Steps of an operation that has so many stores, until `rest` are left, to the end of its line.
fn steps<R: Print>(
    out: &mut Output<'_, R>,
    rec: Record,
    lent: &mut Memory,
    stores: u32,
    rest: u32,
    due: Due,
) -> Record
    requires { rest ≤ stores }
    ensures kept { lent.new.work ≡ lent.old.work }
{
    let mut rec = rec;
    let mut bad = 0;
    for left in (rest..stores).rev() {
        let stepped = step(rec, &mut lent.area, &mut lent.index, &lent.work);
        let answer = stepped.answer;
        let after = stepped.rec;
        rec = after;
        bad = noted(
            bad,
            stores - left,
            step_agrees(answer, after, lent, left, due),
        );
    }
    lines::cuts(out, stores - rest, bad);
    rec
}

// How many bytes of the work buffer are the operation's.
fn work_bytes(rec: Record) -> u32
    ensures { result ≡ work_bytes rec.pending }
{
    let pending = rec.pending;
    match pending {
        Pending::Idle => 0,
        Pending::Append { length, left: _ } => length,
        Pending::NewHead {
            slot: _,
            length,
            left: _,
        } => length,
        Pending::Clean {
            slot: _,
            victims: _,
            length,
            left: _,
        } => length,
        Pending::Forget {
            slot: _,
            victims: _,
            length,
            left: _,
        } => length,
    }
}

// A refused start, which changes nothing.
fn refused<R: Print>(
    out: &mut Output<'_, R>,
    rec: Record,
    lent: &Memory,
    number: u32,
    book: Book,
) -> Played
    ensures { result ≡ played rec book }
{
    lines::compared(
        out,
        b": refused ",
        number,
        reads::both_agree(rec, &lent.area, &lent.index, book),
    );
    Played {
        rec,
        book,
        fails: 0,
    }
}

// How many of an operation's stores are not made: none where the supply does not fail.
fn unmade(stores: u32, fails: u32) -> u32
    ensures { result ≡ not_made stores fails }
{
    if fails == 0 {
        return 0;
    }
    if stores < fails {
        return 0;
    }
    stores - fails
}

// An accepted operation. Its work bytes come on a line of their own; where the supply failed a recovery comes next.
fn accepted<R: Print>(
    out: &mut Output<'_, R>,
    rec: Record,
    lent: &mut Memory,
    stores: u32,
    due: Due,
) -> Played
    ensures kept { lent.new.work ≡ lent.old.work }
{
    let count = work_bytes(rec);
    let rest = unmade(stores, due.fails);
    let book = book_at(rest, due);
    let version = due.version;
    lines::field(out, b": ", stores);
    lines::version(out, b" stores, version ", version);
    let rec = steps(out, rec, lent, stores, rest, due);
    lines::bytes(out, b" ", &lent.work, count as usize);
    if due.fails == 0 {
        return Played {
            rec,
            book,
            fails: 0,
        };
    }
    lines::cut(out, due.fails);
    memory::power_on(out, lent, book)
}

// An operation from its start on.
fn run<R: Print>(out: &mut Output<'_, R>, start: Start, lent: &mut Memory, due: Due) -> Played
    ensures kept { lent.new.work ≡ lent.old.work }
{
    let answer = start.answer;
    let rec = start.rec;
    let book = due.before;
    match answer {
        Err(cause) => refused(out, rec, lent, record::number(cause), book),
        Ok(stores) => accepted(out, rec, lent, stores, due),
    }
}

pub fn write_key<R: Print>(
    out: &mut Output<'_, R>,
    played: Played,
    lent: &mut Memory,
    number: usize,
    value: Value,
) -> Played {
    let rec = played.rec;
    let before = played.book;
    let key = book::key(number);
    let bytes = memory::value_bytes(value);
    let length = value.length.min(memory::LONGEST);
    lines::operation(out, b"write", key);
    let tables = memory::ALL_TABLES;
    let start = write(
        rec,
        &lent.area,
        &lent.index,
        &mut lent.work,
        tables,
        key,
        &bytes[..length],
    );
    let version = before.next;
    let due = Due {
        version,
        before,
        after: book::written(before, number, value),
        fails: played.fails,
    };
    run(out, start, lent, due)
}

pub fn delete_key<R: Print>(
    out: &mut Output<'_, R>,
    played: Played,
    lent: &mut Memory,
    number: usize,
) -> Played {
    let rec = played.rec;
    let before = played.book;
    let key = book::key(number);
    lines::operation(out, b"delete", key);
    let tables = memory::ALL_TABLES;
    let start = delete(rec, &lent.area, &lent.index, &mut lent.work, tables, key);
    let version = before.next;
    let due = Due {
        version,
        before,
        after: book::deleted(before, number),
        fails: played.fails,
    };
    run(out, start, lent, due)
}

// A cleaning changes nothing that the book has, and its version is 0.
pub fn clean_slots<R: Print>(
    out: &mut Output<'_, R>,
    played: Played,
    lent: &mut Memory,
    victims: u32,
) -> Played {
    let rec = played.rec;
    let book = played.book;
    lines::field(out, b"clean ", victims);
    let start = clean(rec, &lent.area, &lent.index, &mut lent.work, victims);
    let due = Due {
        version: Version(0),
        before: book,
        after: book,
        fails: played.fails,
    };
    run(out, start, lent, due)
}

// A map with a slot more; a slot that no map names is left out.
fn with(map: u32, slot: u32) -> u32 {
    if slot < 32 {
        return with_slot(map, slot);
    }
    map
}

// The two slots that one new head can take over are told and cleaned.
pub fn join_slots<R: Print>(out: &mut Output<'_, R>, played: Played, lent: &mut Memory) -> Played {
    let rec = played.rec;
    let joined = join(rec, &lent.area, &lent.index);
    let answer = joined.answer;
    match answer {
        Ok(pair) => {
            lines::field(out, b"join ", pair.first);
            lines::field(out, b" ", pair.second);
            lines::text(out, b"\n");
            clean_slots(out, played, lent, with(with(0, pair.first), pair.second))
        }
        Err(cause) => {
            lines::field(out, b"join: refused ", record::number(cause));
            lines::text(out, b"\n");
            played
        }
    }
}
