// A block, its bytes, and exclusive or.
ghost use Rattle.std.specs.Prelude.{◌≡◌, ◌++◌, ◌≤◌, length, drop};
ghost use Rattle.words.specs.Block.{block_of, bytes_of, xor_block, zero_block};

use crate::word::{load_word, store_word};

// The zero block.
#[tactic(auto, unfolding(crate::specs::Block::zero_block, crate::specs::Sequence::tab))]
pub fn zero() -> [u64; 16]
    ensures { result ≡ zero_block }
{
    [0; 16]
}

// Two blocks, exclusive or.
#[tactic(auto, unfolding(crate::specs::Block::xor_block))]
pub fn xor(a: [u64; 16], b: [u64; 16]) -> [u64; 16]
    ensures { result ≡ xor_block a b }
{
    let mut r = a;
    for i in 0..16 {
        r[i] = a[i] ^ b[i];
    }
    r
}

// The block that the first 128 bytes stand for.
#[tactic(auto, unfolding(crate::specs::Block::block_of))]
pub fn load(s: &[u8]) -> [u64; 16]
    requires { 128 ≤ length s.now }
    ensures { result ≡ block_of s.now }
{
    let mut r = [0; 16];
    for i in 0..16 {
        r[i] = load_word(&s[8 * i..]);
    }
    r
}

// The block's bytes into the first 128 places.
#[tactic(auto, unfolding(crate::specs::Block::bytes_of))]
pub fn store(b: [u64; 16], out: &mut [u8])
    requires { 128 ≤ length out.old }
    ensures { out.new ≡ bytes_of b ++ drop 128 out.old }
{
    for i in 0..16 {
        store_word(b[i], &mut out[8 * i..]);
    }
}
