// The one pass over the message: whole blocks, the leftover, and the check over the plain bytes.
ghost use Rattle.std.specs.Prelude.{◌≡◌, cond, ◌++◌, ◌<◌, ◌≤◌, length, drop};
ghost use Rattle.words.specs.Block.{bytes_of, xor_block, xor_bytes, zero_block};
ghost use Rattle.masks.specs.Steps.{beta as beta_of};
ghost use Rattle.mem.specs.Mem.{encipher as encipher_of};
ghost use Rattle.opp.specs.Opp.{padded as padded_of};
ghost use Rattle.opp.specs.Pass.{AllPassed};

use blockplan::Summed;
use blockplan::leftover::{padded, xor_leftover};
use masks::steps::{beta, gamma};
use mem::cipher::encipher;
use opp_blocks::pass_blocks;
use words::block::{xor, zero};

// The plain one of a leftover's two forms, padded.
#[tactic(auto, unfolding(crate::specs::Opp::padded))]
fn padded_plain<const OPENING: bool>(made: &[u8], given: &[u8]) -> [u64; 16]
    requires { (length made.now < 128) × (length given.now < 128) }
    ensures { result ≡ padded_of (cond OPENING made.now given.now) }
{
    if OPENING {
        padded(made, 1)
    } else {
        padded(given, 1)
    }
}

// The leftover under its own mask: the sum with its plain form in it.
pub fn pass_leftover_under<const OPENING: bool>(
    sum: [u64; 16],
    mask: [u64; 16],
    rounds: u32,
    s: &[u8],
    out: &mut [u8],
) -> [u64; 16]
    requires { (length s.now < 128) × (length s.now ≤ length out.old) }
    ensures out_after { out.new ≡ xor_bytes s.now (bytes_of (encipher_of rounds mask zero_block)) ++ drop (length s.now) out.old }
    ensures value { result ≡ xor_block sum (padded_of (cond OPENING (xor_bytes s.now (bytes_of (encipher_of rounds mask zero_block))) s.now)) }
{
    xor_leftover(s, encipher(zero(), mask, rounds), out);
    let n = s.len();
    let last = padded_plain::<OPENING>(&out[..n], s);
    xor(sum, last)
}

// The leftover, under a mask a beta step on from the one after the whole blocks.
pub fn pass_leftover<const OPENING: bool>(
    blocks: Summed,
    rounds: u32,
    s: &[u8],
    out: &mut [u8],
) -> Summed
    requires { (length s.now < 128) × (length s.now ≤ length out.old) }
    ensures out_after { out.new ≡ xor_bytes s.now (bytes_of (encipher_of rounds (beta_of blocks.mask) zero_block)) ++ drop (length s.now) out.old }
    ensures sum_value { (result.sum ≡ xor_block blocks.sum (padded_of (cond OPENING (xor_bytes s.now (bytes_of (encipher_of rounds (beta_of blocks.mask) zero_block))) s.now))) × (result.mask ≡ beta_of blocks.mask) }
{
    let mask = beta(blocks.mask);
    let sum = pass_leftover_under::<OPENING>(blocks.sum, mask, rounds, s, out);
    Summed { sum, mask }
}

// All bytes. The sum is the check over the plain ones.
pub fn pass<const OPENING: bool>(start: [u64; 16], rounds: u32, s: &[u8], out: &mut [u8]) -> Summed
    requires { length s.now ≤ length out.old }
    ensures { AllPassed OPENING rounds start s.now out.old out.new result.sum result.mask }
{
    let blocks = pass_blocks::<OPENING>(gamma(start), rounds, s, out);
    let n = s.len();
    let at = 128 * (n / 128);
    if at == n {
        return blocks;
    }
    pass_leftover::<OPENING>(blocks, rounds, &s[at..], &mut out[at..])
}
