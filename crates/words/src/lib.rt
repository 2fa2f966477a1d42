// Words: a u32 in little-endian bytes, and the bits of a word.

#![tactic(auto)]

pub mod bits;
pub mod bytes;
