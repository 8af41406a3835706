// The pass that opens from one start and seals from another.
ghost use Rattle.std.specs.Prelude.{◌≡◌, false, ◌++◌, ◌<◌, ◌≤◌, length, drop};
ghost use Rattle.words.specs.Block.{bytes_of, xor_block, xor_bytes, zero_block};
ghost use Rattle.masks.specs.Steps.{beta as beta_of};
ghost use Rattle.mem.specs.Mem.{encipher as encipher_of};
ghost use Rattle.opp.specs.Opp.{padded as padded_of, opp_plain};
ghost use Rattle.opp.specs.Pass.{AllPassed};

use blockplan::Summed;
use masks::steps::gamma;
use opp::message::pass_leftover;
use opp_blocks::resealing::{Resealed, reseal_blocks};

// The leftover, opened on the stack and sealed from there.
fn reseal_leftover(blocks: Resealed, rounds: u32, s: &[u8], out: &mut [u8]) -> Summed
    requires { (length s.now < 128) × (length s.now ≤ length out.old) }
    ensures out_after { out.new ≡ xor_bytes (xor_bytes s.now (bytes_of (encipher_of rounds (beta_of blocks.from) zero_block))) (bytes_of (encipher_of rounds (beta_of blocks.to) zero_block)) ++ drop (length s.now) out.old }
    ensures sum_value { (result.sum ≡ xor_block blocks.sum (padded_of (xor_bytes s.now (bytes_of (encipher_of rounds (beta_of blocks.from) zero_block))))) × (result.mask ≡ beta_of blocks.to) }
{
    let Resealed { sum, from, to } = blocks;
    let mut bytes = [0u8; 128];
    let n = s.len();
    pass_leftover::<true>(Summed { sum, mask: from }, rounds, s, &mut bytes);
    pass_leftover::<false>(Summed { sum, mask: to }, rounds, &bytes[..n], out)
}

// All bytes of a ciphertext: what seals its message from the other start goes to the output.
pub fn reseal_all(from: [u64; 16], to: [u64; 16], rounds: u32, s: &[u8], out: &mut [u8]) -> Summed
    requires { length s.now ≤ length out.old }
    ensures { AllPassed false rounds to (opp_plain rounds from s.now) out.old out.new result.sum result.mask }
{
    let blocks = reseal_blocks(gamma(from), gamma(to), rounds, s, out);
    let n = s.len();
    let at = 128 * (n / 128);
    if at == n {
        let Resealed { sum, to, .. } = blocks;
        return Summed { sum, mask: to };
    }
    reseal_leftover(blocks, rounds, &s[at..], &mut out[at..])
}
