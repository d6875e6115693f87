// Recovers each image of a bundle and writes what came of it: the refusal and what it left of the index, or the record and
// what the reads of some keys answer. The Rust reference wrote the bundle and what is expected.
#![tactic(auto)]

use bundle::item_end;
use std::io;

mod bundle;
mod lent;
mod lines;
mod outcome;

// The items, one after the other. A `while`: a turn goes on by an item's length, not by 1.
fn items(rt: &impl Print, bundle: &[u8]) -> io::Result<()> {
    let mut at = 0;
    while at < bundle.len() {
        let end = item_end(bundle, at);
        lent::of_item(rt, &bundle[at..end])?;
        at = end;
    }
    Ok(())
}

fn main(rt: HostRuntime) -> io::Result<()> {
    let mut input = [0; 262144];
    let n = reading::read_full(&rt, &mut input)?;
    items(&rt, &input[..n])
}
