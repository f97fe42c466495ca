//! The sets of kinds. Written by tools/grammar from arithmetic.grammar.

/// Four words of 64 bits for each set.
#[rattlefmt::skip]
pub(crate) static SETS: [u64; 4] = [
    0x7800, 0x0, 0x0, 0x0,
];
