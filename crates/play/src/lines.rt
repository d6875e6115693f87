// What is written of an operation.
use segment::{Key, Version};
use std::io;

// Where the lines go, and whether they went there. After a write that failed nothing more is written.
pub struct Output<'a, R: Print> {
    rt: &'a R,
    written: io::Result<()>,
}

impl<'a, R: Print> Output<'a, R> {
    pub fn new(rt: &'a R) -> Output<'a, R> {
        Output {
            rt,
            written: Ok(()),
        }
    }

    // Whether all was written, and else what failed.
    pub fn end(self) -> io::Result<()> {
        let Output { rt: _, written } = self;
        written
    }
}

// Names and numbers are written apart, and a line is no single `print!`: each goes out only where all before it did.
pub fn text<R: Print>(out: &mut Output<'_, R>, name: &[u8]) {
    if out.written.is_ok() {
        out.written = out.rt.write_all(name);
    }
}

fn decimal<R: Print>(out: &mut Output<'_, R>, n: u64) {
    if out.written.is_ok() {
        out.written = print!(out.rt; "{n}");
    }
}

// A name and a number after it.
pub fn field<R: Print>(out: &mut Output<'_, R>, name: &[u8], n: u32) {
    text(out, name);
    decimal(out, n as u64);
}

// A name and a version after it.
pub fn version<R: Print>(out: &mut Output<'_, R>, name: &[u8], v: Version) {
    text(out, name);
    decimal(out, v.0);
}

// The name of an operation and its key.
pub fn operation<R: Print>(out: &mut Output<'_, R>, name: &[u8], key: Key) {
    text(out, name);
    field(out, b" ", key.table as u32);
    field(out, b" ", key.key);
}

fn byte<R: Print>(out: &mut Output<'_, R>, b: u8) {
    if out.written.is_ok() {
        out.written = print!(out.rt; " {b:02x}");
    }
}

// The first bytes of a buffer, to the end of the line.
pub fn bytes<R: Print>(out: &mut Output<'_, R>, name: &[u8], buffer: &[u8], count: usize) {
    text(out, name);
    for b in buffer.iter().take(count) {
        byte(out, *b);
    }
    text(out, b"\n");
}

// Whether all was as it must be, to the end of the line.
fn verdict<R: Print>(out: &mut Output<'_, R>, agrees: bool) {
    if agrees {
        text(out, b" as the book says\n");
        return;
    }
    text(out, b" not as the book says\n");
}

// A name, a number, and whether all was as it must be.
pub fn compared<R: Print>(out: &mut Output<'_, R>, name: &[u8], n: u32, agrees: bool) {
    field(out, name, n);
    text(out, b",");
    verdict(out, agrees);
}

// The same of a version.
pub fn version_compared<R: Print>(out: &mut Output<'_, R>, name: &[u8], v: Version, agrees: bool) {
    version(out, name, v);
    text(out, b",");
    verdict(out, agrees);
}

// How the cuts after each of so many stores went: `bad` is the number of stores before the first one that differs, 0 where none does.
pub fn cuts<R: Print>(out: &mut Output<'_, R>, made: u32, bad: u32) {
    if bad == 0 {
        field(out, b", ", made);
        text(out, b" cuts");
    } else {
        field(out, b", after store ", bad);
    }
    verdict(out, bad == 0);
}

pub fn cut<R: Print>(out: &mut Output<'_, R>, made: u32) {
    field(out, b"cut after ", made);
    text(out, b" stores\n");
}
