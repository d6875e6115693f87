// The book of a history (01, "The book of a list"), for four keys: what recovery and reads have to answer.
ghost use Rattle.std.specs.Prelude.{◌≡◌, slice_set};
ghost use Rattle.play.specs.Book.{key_of, nothing, empty_book, following, changed, written, deleted};

use segment::layout::version_limit;
use segment::{Edition, Key, Version};

// How many keys the book has.
pub const KEYS: usize = 4;

// A value as a history writes it: so many bytes, the first one, and what each adds to the one before it.
#[derive(Clone, Copy)]
pub struct Value {
    pub length: usize,
    pub first: u8,
    pub rise: u8,
}

// What a key has. Version 0 stands for a key that is not present: no `Option`, since `read_says` compares versions alone.
#[derive(Clone, Copy)]
pub struct Held {
    pub version: Version,
    pub value: Value,
}

#[derive(Clone, Copy)]
pub struct Book {
    pub next: Version,
    pub held: [Held; 4],
}

// The keys by their numbers: that of 01's cases, its neighbour, the lowest and the highest.
pub fn key(number: usize) -> Key
    ensures { result ≡ key_of number }
{
    match number {
        0 => Key { table: 7, key: 9 },
        1 => Key { table: 7, key: 10 },
        2 => Key { table: 0, key: 0 },
        _ => Key {
            table: 65535,
            key: 4294967295,
        },
    }
}

fn nothing() -> Held
    ensures { result ≡ nothing }
{
    let value = Value {
        length: 0,
        first: 0,
        rise: 0,
    };
    Held {
        version: Version(0),
        value,
    }
}

// The book without keys, at this next version.
pub fn empty(next: Version) -> Book
    ensures { result ≡ empty_book next }
{
    let held = [nothing(), nothing(), nothing(), nothing()];
    Book { next, held }
}

// The version after a given one.
fn following(version: Version) -> Version
    ensures { result ≡ following version }
{
    let limit = version_limit(Edition::First);
    if limit <= version.0 {
        return Version(limit);
    }
    Version(version.0 + 1)
}

// What the keys have once one of them has what is given.
fn with_held(held: [Held; 4], number: usize, now: Held) -> [Held; 4]
    ensures { result ≡ slice_set held number now }
{
    if KEYS <= number {
        return held;
    }
    let mut held = held;
    held[number] = now;
    held
}

// The book once a key has what is given, at the next version.
fn changed(book: Book, number: usize, now: Held) -> Book
    ensures { result ≡ changed book number now }
{
    let next = book.next;
    let held = book.held;
    Book {
        next: following(next),
        held: with_held(held, number, now),
    }
}

// The book after a write.
pub fn written(book: Book, number: usize, value: Value) -> Book
    ensures { result ≡ written book number value }
{
    let version = book.next;
    let now = Held { version, value };
    changed(book, number, now)
}

// The book after a delete.
pub fn deleted(book: Book, number: usize) -> Book
    ensures { result ≡ deleted book number }
{
    changed(book, number, nothing())
}
