// Makes the calls of a written history on an area and writes a line for each operation. After every store the area is handed to
// recovery as a cut would leave it, and what it gives is compared with the book of the history.
#![tactic(auto)]

use lines::Output;
use memory::Memory;
use std::io;

mod book;
mod history;
mod lines;
mod memory;
mod operations;
mod reads;

fn main(rt: HostRuntime) -> io::Result<()> {
    let mut out = Output::new(&rt);
    let mut lent = Memory {
        area: [0; 1024],
        index: [0; 16],
        work: [0xee; 256],
    };
    let mut played = memory::fresh(&mut out, &mut lent);
    for part in history::PARTS {
        played = history::goes_on(&mut out, part, played, &mut lent);
    }
    out.end()
}
