// Reads one digit, 0 to 6, and prints all legal histories up to that length, and the first that recovers wrongly or `none` (02, R-14), for a copy whose
// recovery takes the next version from log entries alone.
// A twin of `rig` but for one argument: they are two programs by name, and a shared body would be no shorter.
#![tactic(auto)]

use rigging::ROOM;
use std::io;

fn main(rt: HostRuntime) -> io::Result<()> {
    let mut input = [0; 2];
    let mut out = [0; ROOM];
    let given = reading::read_full(&rt, &mut input)?;
    let end = rigging::rig(&input[..given], &mut out, true);
    rt.write_all(&out[..end])
}
