// What is written of an item.
use record::Record;
use segment::{Key, Version};
use std::io;

pub fn text(rt: &impl Print, name: &[u8]) -> io::Result<()> {
    rt.write_all(name)
}

// A name and a number after it.
pub fn field(rt: &impl Print, name: &[u8], n: u32) -> io::Result<()> {
    rt.write_all(name)?;
    print!(rt; "{n}")
}

// A name and a version after it.
pub fn version(rt: &impl Print, name: &[u8], v: Version) -> io::Result<()> {
    rt.write_all(name)?;
    print!(rt; "{}", v.0)
}

pub fn record(rt: &impl Print, rec: Record) -> io::Result<()> {
    println!(rt;
        ": next {} digest {} head {} end {} map {} keys {}",
        rec.next.0, rec.digest.0, rec.head, rec.end, rec.map, rec.keys
    )
}

pub fn key(rt: &impl Print, k: Key) -> io::Result<()> {
    print!(rt; "  {} {}", k.table, k.key)
}

// The bytes of a value, to the end of the line.
pub fn value(rt: &impl Print, bytes: &[u8]) -> io::Result<()> {
    for b in bytes {
        print!(rt; " {b:02x}")?;
    }
    text(rt, b"\n")
}
