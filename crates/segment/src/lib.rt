// The bytes of one segment: its counters, the entry reader, the digest, and what is written.
#![tactic(auto)]

pub mod area;
pub mod entries;
pub mod layout;
pub mod reader;
pub mod rewrite;
pub mod writer;

// A version of an object or tombstone. Versions and digest numbers are counted apart (01, "Bytes of a segment").
#[derive(Clone, Copy, PartialEq, Eq, PartialOrd, Ord)]
pub struct Version(pub u64);

// The number of a digest.
#[derive(Clone, Copy, PartialEq, Eq, PartialOrd, Ord)]
pub struct DigestNumber(pub u32);

// The editions of the format (02, R-11). What each fixes is a table of `layout`.
#[derive(Clone, Copy, PartialEq, Eq)]
pub enum Edition {
    First,
    Second,
}

// A key is table and key together (01, "The log and its map").
#[derive(Clone, Copy, PartialEq, Eq)]
pub struct Key {
    pub table: u16,
    pub key: u32,
}

// What stands at an offset of a segment, one of four, which no Option or Result tells. `length` is the whole entry's.
#[derive(Clone, Copy, PartialEq, Eq)]
pub enum Read {
    Object {
        key: Key,
        version: Version,
        kind: u8,
        length: usize,
    },
    Tombstone {
        key: Key,
        version: Version,
        length: usize,
    },
    End,
    Damage,
}

// What an entry has before its value, an object or a tombstone.
#[derive(Clone, Copy, PartialEq, Eq)]
pub struct Header {
    pub key: Key,
    pub version: Version,
    pub tombstone: bool,
    pub length: usize,
}

// What a walk over a segment meets, one of three, which no Option or Result tells.
#[derive(Clone, Copy, PartialEq, Eq)]
pub enum Next {
    Entry(Header),
    End,
    Damage,
}

// The fields of a digest.
#[derive(Clone, Copy, PartialEq, Eq)]
pub struct Digest {
    pub number: DigestNumber,
    pub map: u32,
    pub next: Version,
}
