// Conversion of an image to the other edition (02, R-12). The checks of the image are recovery's, and all is known before the first
// byte of the second buffer is written.
#![tactic(auto)]

pub mod convert;
pub mod rewrite;
pub mod sizes;
pub mod widths;
