// The book of a history (01, "The book of a list"), for the two keys of the rig.
ghost use Rattle.std.specs.Prelude.{◌≡◌};
ghost use Rattle.histories.specs.Book.{first_key, second_key, absent, fresh_book, following, finished, count_of};

use crate::Letter;
use segment::Key;

// What a key has: its version, 0 where it is absent, and the byte that its value has eight times. No entry has version 0, so one
// comparison of versions tells an absent key from a present one, without an `Option`.
#[derive(Clone, Copy)]
pub struct Held {
    pub version: u64,
    pub byte: u8,
}

#[derive(Clone, Copy)]
pub struct Book {
    pub next: u64,
    pub first: Held,
    pub second: Held,
}

pub fn first_key() -> Key
    ensures { result ≡ first_key }
{
    Key { table: 1, key: 1 }
}

pub fn second_key() -> Key
    ensures { result ≡ second_key }
{
    Key { table: 1, key: 2 }
}

fn absent() -> Held
    ensures { result ≡ absent }
{
    Held {
        version: 0,
        byte: 0,
    }
}

// The book of a fresh store.
pub fn fresh() -> Book
    ensures { result ≡ fresh_book }
{
    Book {
        next: 1,
        first: absent(),
        second: absent(),
    }
}

fn following(next: u64) -> u64
    ensures { result ≡ following next }
{
    next.min(0xffff_fffe) + 1
}

// The book once the letter at a place of a history has counted.
pub fn finished(book: Book, l: Letter, place: u8) -> Book
    ensures { result ≡ finished book l place }
{
    let next = following(book.next);
    let written = Held {
        version: book.next,
        byte: place,
    };
    match l {
        Letter::WriteA => Book {
            next,
            first: written,
            ..book
        },
        Letter::WriteB => Book {
            next,
            second: written,
            ..book
        },
        Letter::DeleteA => Book {
            next,
            first: absent(),
            ..book
        },
        Letter::DeleteB => Book {
            next,
            second: absent(),
            ..book
        },
        Letter::CleanAll => book,
    }
}

// How many keys the book has.
pub fn count(book: Book) -> usize
    ensures { result ≡ count_of book }
{
    usize::from(book.first.version != 0) + usize::from(book.second.version != 0)
}
