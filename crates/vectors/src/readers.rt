// The readers of a segment of edition 1 over the worked bytes of 01, "Values to hold it to", and over bytes that are no entry.
use segment::layout::digest_size;
use segment::reader::{digest, read};
use segment::{Edition, Key, Read, Version};
use std::io;

fn digest_line(rt: &impl Print, s: &[u8]) -> io::Result<()> {
    if s.len() < digest_size(Edition::First) {
        return Ok(());
    }
    let d = digest(Edition::First, s);
    println!(rt;
        "digest number {} map {} next {}",
        d.number.0, d.map, d.next.0
    )
}

fn entry_line(
    rt: &impl Print,
    name: &str,
    key: Key,
    version: Version,
    length: usize,
) -> io::Result<()> {
    print!(rt;
        "{name} table {} key {} version {} length {length}",
        key.table, key.key, version.0
    )
}

// What stands at an offset of a segment, to the end of the line.
fn found(rt: &impl Print, s: &[u8], at: usize) -> io::Result<()> {
    rt.write_all(b": ")?;
    match read(Edition::First, s, at) {
        Read::Object {
            key,
            version,
            kind,
            length,
        } => {
            entry_line(rt, "object", key, version, length)?;
            print!(rt; " kind {kind}")?;
        }
        Read::Tombstone {
            key,
            version,
            length,
        } => {
            entry_line(rt, "tombstone", key, version, length)?;
        }
        Read::End => {
            rt.write_all(b"end")?;
        }
        Read::Damage => {
            rt.write_all(b"damage")?;
        }
    }
    rt.write_all(b"\n")
}

fn read_line(rt: &impl Print, s: &[u8], at: usize) -> io::Result<()> {
    print!(rt; "at {at}")?;
    found(rt, s, at)
}

// What an entry's bytes alone are read as.
fn named_line(rt: &impl Print, name: &str, entry: &[u8]) -> io::Result<()> {
    print!(rt; "{name}")?;
    found(rt, entry, 0)
}

// Cases 1, 2 and 4: a fresh slot, after the write, after the delete.
pub fn worked(rt: &impl Print) -> io::Result<()> {
    let fresh = b"\x05\x01\x00\x00\x00\x01\x00\x00\x00\x01\x00\x00\x00\x00";
    rt.write_all(b"Case 1\n")?;
    digest_line(rt, fresh)?;
    read_line(rt, fresh, 13)?;
    let written =
        b"\x05\x01\x00\x00\x00\x01\x00\x00\x00\x01\x00\x00\x00\x01\x07\x00\x09\x00\x00\x00\x01\x00\x00\x00\x11\x11\x11\x11\x11\x11\x11\x11\x00";
    rt.write_all(b"Case 2\n")?;
    digest_line(rt, written)?;
    read_line(rt, written, 13)?;
    read_line(rt, written, 32)?;
    let deleted =
        b"\x05\x01\x00\x00\x00\x01\x00\x00\x00\x01\x00\x00\x00\x01\x07\x00\x09\x00\x00\x00\x01\x00\x00\x00\x11\x11\x11\x11\x11\x11\x11\x11\x04\x07\x00\x09\x00\x00\x00\x02\x00\x00\x00\x00";
    rt.write_all(b"Case 4\n")?;
    digest_line(rt, deleted)?;
    read_line(rt, deleted, 13)?;
    read_line(rt, deleted, 32)?;
    read_line(rt, deleted, 43)
}

// A tombstone that ends where its segment does, and what is no entry.
pub fn ends_and_damage(rt: &impl Print) -> io::Result<()> {
    rt.write_all(b"Ends and damage\n")?;
    let last = b"\x04\x07\x00\x09\x00\x00\x00\xfe\xff\xff\xff";
    read_line(rt, last, 0)?;
    read_line(rt, last, 11)?;
    read_line(rt, last, 12)?;
    named_line(
        rt,
        "a digest's kind",
        b"\x05\x07\x00\x09\x00\x00\x00\x02\x00\x00\x00",
    )?;
    named_line(
        rt,
        "no kind",
        b"\x06\x07\x00\x09\x00\x00\x00\x02\x00\x00\x00",
    )?;
    named_line(
        rt,
        "a byte short",
        b"\x01\x07\x00\x09\x00\x00\x00\x02\x00\x00\x00\x11\x11\x11\x11\x11\x11\x11",
    )?;
    named_line(
        rt,
        "version 0",
        b"\x04\x07\x00\x09\x00\x00\x00\x00\x00\x00\x00",
    )?;
    named_line(
        rt,
        "version 4294967295",
        b"\x04\x07\x00\x09\x00\x00\x00\xff\xff\xff\xff",
    )
}

// A kind before as many bytes as the longest entry has.
fn kind_line(rt: &impl Print, kind: u8) -> io::Result<()> {
    let mut entry = [0x11; 131];
    entry[0] = kind;
    print!(rt; "kind {kind}")?;
    found(rt, &entry, 0)
}

// The table of kinds, and the kinds beside those that it has; the longest entry without its last byte.
pub fn kinds(rt: &impl Print) -> io::Result<()> {
    rt.write_all(b"Kinds\n")?;
    for kind in 0..=8 {
        kind_line(rt, kind)?;
    }
    kind_line(rt, 255)?;
    let mut entry = [0x11; 131];
    entry[0] = 7;
    named_line(rt, "kind 7, a byte short", &entry[..130])
}
