// Place and byte of the next store of a pending operation, and what is tested before it. Nothing here writes.
#![tactic(auto)]

pub mod agree;
pub mod next;
pub mod tell;

// The next store of a pending operation without a look at the buffers: its place in the area, and whence its byte comes. The byte stands
// at an offset of the work buffer where it is copied, else it is 0.
#[derive(Clone, Copy)]
pub struct NextPlace<N> {
    pub place: N,
    pub from: N,
    pub copied: bool,
}

// Where the bytes of an operation go: its slot and the offset in it, how many they are, the stores of 0 that it makes at the slot's byte
// 0 before them, and the stores left. No bytes where nothing is pending.
#[derive(Clone, Copy)]
pub struct Target {
    pub slot: u32,
    pub offset: u32,
    pub count: u32,
    pub first: u32,
    pub left: u32,
}

// Whether a pending operation agrees with its record, and where its bytes go.
#[derive(Clone, Copy)]
pub struct Aim {
    pub agreed: bool,
    pub to: Target,
}
