// Little-endian numbers in byte slices, the wrapping product, 32-bit FNV-1a, and remainders.
#![tactic(auto)]

pub mod fnv;
pub mod number;
pub mod remainder;
