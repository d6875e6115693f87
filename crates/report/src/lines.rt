// The lines of a report, each put into the buffer at a place and answering the place behind it.
ghost use Rattle.std.specs.Prelude.{◌+◌, ◌^◌, ◌<◌, ◌≤◌, length};
ghost use Rattle.report.specs.Report.{field, refused_line, head_line, key_line};
ghost use Rattle.report.specs.PutLaws.{PutWithin};

use record::{Refusal, number};
use segment::{DigestNumber, Key, Version};
use text::{put, put_number};

// A number of at most so many digits, and a word behind it.
fn put_field<const DIGITS: usize>(out: &mut [u8], at: usize, n: u64, word: &[u8]) -> usize
    requires { (0 < DIGITS) × (n < 10 ^ DIGITS) × (at + DIGITS + length word.now ≤ length out.old) }
    ensures { PutWithin out.old out.new at result (field n word.now) (DIGITS + length word.now) }
{
    let end = put_number(out, at, n);
    put(out, end, word)
}

// A refusal's number.
pub fn put_refused(out: &mut [u8], cause: Refusal) -> usize
    requires { 64 ≤ length out.old }
    ensures { PutWithin out.old out.new 0 result (refused_line cause) 64 }
{
    let at = put(out, 0, b"refused ");
    put_field::<10>(out, at, number(cause) as u64, b"\n")
}

// Next version, digest number and number of keys.
pub fn put_head(out: &mut [u8], next: Version, digest: DigestNumber, keys: u32) -> usize
    requires { 64 ≤ length out.old }
    ensures { PutWithin out.old out.new 0 result (head_line next digest keys) 64 }
{
    let at = put(out, 0, b"next ");
    let at = put_field::<20>(out, at, next.0, b" digest ");
    let at = put_field::<10>(out, at, digest.0 as u64, b" keys ");
    put_field::<10>(out, at, keys as u64, b"\n")
}

// Table, key, version and kind.
pub fn put_key(out: &mut [u8], at: usize, key: Key, version: Version, kind: u8) -> usize
    requires { at + 54 ≤ length out.old }
    ensures { PutWithin out.old out.new at result (key_line key version kind) 54 }
{
    let at = put_field::<10>(out, at, key.table as u64, b" ");
    let at = put_field::<10>(out, at, key.key as u64, b" ");
    let at = put_field::<20>(out, at, version.0, b" ");
    put_field::<10>(out, at, kind as u64, b"\n")
}
