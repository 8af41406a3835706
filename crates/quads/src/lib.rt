// Four blocks at a time: read and written one behind the other, summed, and enciphered side by side.

#![tactic(auto)]

pub mod bytes;
pub mod four_masks;
pub mod masked;
pub mod spreading;

// Four blocks.
// Kept: four fields and no array, since each lane has its own line in a turn: f[0][i] is no plainer than f.a[i].
#[derive(Clone, Copy)]
pub struct Four {
    pub a: [u64; 16],
    pub b: [u64; 16],
    pub c: [u64; 16],
    pub d: [u64; 16],
}
