// The sum over the header, and the block whose first 32 bytes are the tag.
ghost use Rattle.std.specs.Prelude.{◌≡◌};
ghost use Rattle.words.specs.Block.{xor_block};
ghost use Rattle.masks.specs.Steps.{beta as beta_of};
ghost use Rattle.mem.specs.Mem.{encipher as encipher_of};
ghost use Rattle.opp.specs.Opp.{opp_sum};

use blockplan::Summed;
use blockplan::absorb::absorb;
use masks::steps::beta;
use mem::cipher::encipher;
use words::block::xor;

// Sum: the header's whole blocks, and its leftover, padded with byte 1, under a mask a beta step on.
fn header_sum(start: [u64; 16], rounds: u32, header: &[u8]) -> [u64; 16]
    ensures { result ≡ opp_sum rounds start header.now }
{
    absorb::<true>(header, start, 1, rounds)
}

// Sum, xor E of the check under a mask two beta steps on from the one that the pass ends with.
pub fn tag_block(start: [u64; 16], rounds: u32, header: &[u8], passed: Summed) -> [u64; 16]
    ensures { result ≡ xor_block (opp_sum rounds start header.now) (encipher_of rounds (beta_of (beta_of passed.mask)) passed.sum) }
{
    let sum = header_sum(start, rounds, header);
    xor(sum, encipher(passed.sum, beta(beta(passed.mask)), rounds))
}
