// Which two slots of the log one new head can take over (02, R-7).
//
// The bytes kept of a pair differ from what each slot keeps with the other left alone only by tombstones whose objects all stand
// in the two slots. One walk over the log adds up the objects that each slot keeps and notes for the latest entry of each key where
// other objects of the key stand. A second one adds what each slot keeps of its tombstones, and tells for each other slot how much
// of it goes where that one is a victim too. A slot is read in its own edition, and bytes are counted as they are rewritten in that
// of the new head (02, R-13).
#![tactic(auto)]

pub mod join;
pub mod notes;
pub mod pairs;
pub mod weights;

// Bytes of a slot as rewritten: of the objects that are kept, and of all tombstones.
#[derive(Clone, Copy)]
pub struct Sums {
    pub objects: usize,
    pub tombstones: usize,
}

// What a cleaning keeps of a tombstone, by the other victim: nothing, all of it, or all unless the other one is that slot.
#[derive(Clone, Copy)]
pub enum Share {
    Nothing,
    Whole,
    Unless(usize),
}
