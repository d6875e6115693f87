// Runs the leaf crates over published and worked values, and writes a line for each.
#![tactic(auto)]

use std::io;

mod hashes;
mod readers;

fn main(rt: HostRuntime) -> io::Result<()> {
    hashes::published(&rt)?;
    hashes::keys(&rt)?;
    readers::worked(&rt)?;
    readers::ends_and_damage(&rt)?;
    readers::kinds(&rt)
}
