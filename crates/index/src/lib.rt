// The index over the caller's cells: search, put and rebuild.
#![tactic(auto)]

pub mod build;
pub mod put;
pub mod search;

// What a search for a key meets: the cell that holds it, a free cell, or neither in any cell.
#[derive(Clone, Copy)]
pub enum Found {
    At(usize),
    Free(usize),
    Full,
}

// What became of an entry: a new key's cell is filled, a newer entry replaces an older one, whose place is told, an older one changes
// nothing,
// or every cell is taken by other keys.
#[derive(Clone, Copy)]
pub enum Inserted {
    New,
    Newer(u32),
    Older,
    Full,
}
