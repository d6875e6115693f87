// Reads N (1 byte), S (2 bytes) and an area from standard input, and prints what the area holds (01, "Values to hold it to").
#![tactic(auto)]

use report::ROOM;
use std::io;

// The longest input that can be right, and a byte more to tell a longer one.
const LONGEST: usize = 3 + 32 * 2048 + 1;

fn main(rt: HostRuntime) -> io::Result<()> {
    let mut input = [0; LONGEST];
    let mut out = [0; ROOM];
    let given = reading::read_full(&rt, &mut input)?;
    let end = report::dump(&input[..given], &mut out);
    rt.write_all(&out[..end])
}
