// P and the back permutation on four blocks side by side: word i of block m stands at 4 * i + m of 64
// words, so that a step on one word of each block is a step on four neighbouring words.

#![tactic(auto)]

mod g;
pub mod permute;
mod round;
