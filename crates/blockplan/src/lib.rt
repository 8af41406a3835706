// What both modes do with bytes: whole blocks summed under stepping masks, and a leftover.

#![tactic(auto)]

pub mod absorb;
pub mod leftover;

// A sum of blocks, and the mask of the next block.
#[derive(Clone, Copy)]
pub struct Summed {
    pub sum: [u64; 16],
    pub mask: [u64; 16],
}
