// The whole blocks sealed.
ghost use Rattle.std.specs.Prelude.{◌≡◌, false, ◌++◌, ◌≤◌, length, drop};
ghost use Rattle.words.specs.Block.{block_of, bytes_of, xor_block};
ghost use Rattle.mem.specs.Mem.{encipher as encipher_of};
ghost use Rattle.blockplan.specs.Plan.{whole};
ghost use Rattle.blockplan.specs.Pass.{stepping, Passed};

use crate::one::pass_block;
use blockplan::Summed;
use masks::steps::alpha;
use mem::cipher::encipher;
use words::block::{load, store, xor, zero};

// Two blocks sealed, the second under the next mask. A turn of two moves the mask's words half as
// often, and reading the blocks again for the check is cheaper than keeping their words while P runs.
fn seal_pair(
    sum: [u64; 16],
    mask: [u64; 16],
    next: [u64; 16],
    rounds: u32,
    s: &[u8],
    out: &mut [u8],
) -> [u64; 16]
    requires { (256 ≤ length s.now) × (256 ≤ length out.old) }
    ensures out_after { out.new ≡ bytes_of (encipher_of rounds mask (block_of s.now)) ++ (bytes_of (encipher_of rounds next (block_of (drop 128 s.now))) ++ drop 256 out.old) }
    ensures value { result ≡ xor_block (xor_block sum (block_of s.now)) (block_of (drop 128 s.now)) }
{
    store(encipher(load(s), mask, rounds), out);
    store(encipher(load(&s[128..]), next, rounds), &mut out[128..]);
    let more = xor(sum, load(s));
    xor(more, load(&s[128..]))
}

// The whole blocks sealed, each written at its own offset: two in a turn, and one at the end where their
// number is odd.
// Kept: beside open_blocks, which takes one block in a turn: two move the mask's words half as often (docs/DECISIONS.md).
pub fn seal_blocks(first: [u64; 16], rounds: u32, s: &[u8], out: &mut [u8]) -> Summed
    requires { length s.now ≤ length out.old }
    ensures { Passed false rounds (stepping first) s.now (whole s.now) out.old out.new result.sum result.mask }
{
    let mut sum = zero();
    let mut mask = first;
    let count = s.len() / 128;
    for i in 0..count / 2 {
        let at = 256 * i;
        let next = alpha(mask);
        let more = seal_pair(sum, mask, next, rounds, &s[at..], &mut out[at..]);
        sum = more;
        let step = alpha(next);
        mask = step;
    }
    if count % 2 == 0 {
        return Summed { sum, mask };
    }
    let at = 128 * (count - 1);
    let more = pass_block::<false>(sum, mask, rounds, &s[at..], &mut out[at..]);
    Summed {
        sum: more,
        mask: alpha(mask),
    }
}
