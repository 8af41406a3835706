// P and the back permutation under a mask.
ghost use Rattle.std.specs.Prelude.{◌≡◌};
ghost use Rattle.words.specs.Block.{xor_block};
ghost use Rattle.mem.specs.Mem.{encipher as encipher_of, decipher as decipher_of};

use permutation::permute::permute;
use permutation::way::{Back, Forward, Way};
use words::block::xor;

// The rounds of either way, between two xors with the mask.
fn masked<W: Way>(block: [u64; 16], mask: [u64; 16], rounds: u32) -> [u64; 16]
    ensures { result ≡ xor_block (W.rounds rounds (xor_block block mask)) mask }
{
    let inner = permute::<W>(xor(block, mask), rounds);
    xor(inner, mask)
}

// E of a block, given its mask.
#[tactic(auto, unfolding(crate::specs::Mem::encipher))]
pub fn encipher(block: [u64; 16], mask: [u64; 16], rounds: u32) -> [u64; 16]
    ensures { result ≡ encipher_of rounds mask block }
{
    masked::<Forward>(block, mask, rounds)
}

// D of a block, given its mask.
#[tactic(auto, unfolding(crate::specs::Mem::decipher))]
pub fn decipher(block: [u64; 16], mask: [u64; 16], rounds: u32) -> [u64; 16]
    ensures { result ≡ decipher_of rounds mask block }
{
    masked::<Back>(block, mask, rounds)
}
