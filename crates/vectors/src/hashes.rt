// 32-bit FNV-1a: its published vectors, and the hash of a key.
use std::io;

// The hash of a text, and the text in quotes. Bytes, and no `&str`: a text's beginnings are cut at bytes.
fn line(rt: &impl Print, text: &[u8]) -> io::Result<()> {
    print!(rt; "{:08x} \"", word::fnv::fnv1a(text))?;
    rt.write_all(text)?;
    rt.write_all(b"\"\n")
}

// A line for each beginning of a text but the empty one.
fn prefixes(rt: &impl Print, text: &[u8]) -> io::Result<()> {
    for n in 1..=text.len() {
        line(rt, &text[..n])?;
    }
    Ok(())
}

pub fn published(rt: &impl Print) -> io::Result<()> {
    rt.write_all(b"FNV-1a\n")?;
    line(rt, b"")?;
    line(rt, b"a")?;
    line(rt, b"b")?;
    line(rt, b"d")?;
    line(rt, b"e")?;
    prefixes(rt, b"foobar")?;
    prefixes(rt, b"chongo was here!")
}

// The hash of a key by its table and key, and of the six bytes as they are stored.
fn key_line(rt: &impl Print, table: u16, key: u32, stored: &[u8]) -> io::Result<()> {
    let by_key = word::fnv::key_hash(table, key);
    let by_bytes = word::fnv::fnv1a(stored);
    println!(rt; "{by_key:08x} {by_bytes:08x} table {table} key {key}")
}

pub fn keys(rt: &impl Print) -> io::Result<()> {
    rt.write_all(b"Keys\n")?;
    key_line(rt, 0, 0, b"\x00\x00\x00\x00\x00\x00")?;
    key_line(rt, 7, 9, b"\x07\x00\x09\x00\x00\x00")?;
    key_line(rt, 0x1234, 0x89abcdef, b"\x34\x12\xef\xcd\xab\x89")?;
    key_line(rt, 65535, 4294967295, b"\xff\xff\xff\xff\xff\xff")
}
