// 64-bit words, blocks of sixteen of them, and the 128 bytes that a block stands for, each word low
// byte first.

#![tactic(auto)]

pub mod block;
pub mod word;
