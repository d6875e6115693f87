// The start of a cleaning: what is kept of the victims' slots is measured, and then laid out in the work buffer behind the
// digest of a new head. Each walk over a segment's entries is a loop of its own and takes no closure, so that all of it is put in line.
#![tactic(auto)]

mod bits;
pub mod by_kind;
pub mod chosen;
pub mod clean;
pub mod copy;
pub mod filter;
pub mod kept;
pub mod marks;
pub mod noted;
pub mod outside;
pub mod runs;
pub mod tombstones;

// N and S, and the log's slots in two parts: the victims and those outside of them.
#[derive(Clone, Copy)]
pub struct Split {
    pub slots: usize,
    pub size: usize,
    pub victims: u32,
    pub outside: u32,
}
