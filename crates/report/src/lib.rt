// What the program `dump` prints (01, "Values to hold it to"), as a text in a caller's buffer.
#![tactic(auto)]

ghost use Rattle.std.specs.Prelude.{◌≤◌, length};
ghost use Rattle.report.specs.Report.{area_text, dump_text, text_room, text_within};
ghost use Rattle.report.specs.PutLaws.{PutWithin};

use crate::ascending::recover_area;
use crate::lines::put_refused;
use crate::listing::put_listing;
use record::Refusal;
use word::number::read16;

mod ascending;
pub mod gather;
mod lines;
mod listing;
mod ranks;

// No text is longer.
pub const ROOM: usize = 221248;

// M, the number of cells of the index that is recovered.
const CELLS: usize = 4096;

// The text for N, S and an area.
fn put_area(n: u32, s: u32, area: &[u8], out: &mut [u8]) -> usize
    requires { text_room ≤ length out.old }
    ensures { PutWithin out.old out.new 0 result (area_text n s area.now) text_room }
{
    let mut index = [0; CELLS];
    let recovery = recover_area(n, s, area, &mut index);
    let answer = recovery.answer;
    let rec = recovery.rec;
    match answer {
        Err(cause) => put_refused(out, cause),
        Ok(()) => put_listing(rec, area, &index, out),
    }
}

// The text for an input of N (1 byte), S (2 bytes) and the area, put at the start of the buffer; the answer is its length.
// In a buffer of less than ROOM bytes nothing is put.
pub fn dump(input: &[u8], out: &mut [u8]) -> usize
    ensures { PutWithin out.old out.new 0 result
        (text_within (length out.old) (dump_text input.now)) (length out.old) }
{
    if out.len() < ROOM {
        return 0;
    }
    if input.len() < 3 {
        return put_refused(out, Refusal::Geometry);
    }
    let n = input[0] as u32;
    let s = read16(input, 1) as u32;
    put_area(n, s, &input[3..], out)
}
