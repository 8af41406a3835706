// Blocks enciphered and summed: the whole ones under masks an alpha step apart, and a padded leftover.
ghost use Rattle.std.specs.Prelude.{◌≡◌, false, cond, ◌++◌, ◌∷◌, [], ◌<◌, length};
ghost use Rattle.words.specs.Block.{block_of, xor_block};
ghost use Rattle.masks.specs.Steps.{beta as beta_of};
ghost use Rattle.mem.specs.Mem.{encipher as encipher_of};
ghost use Rattle.blockplan.specs.Plan.{whole, left, has_left, xor_over, xor_if};
ghost use Rattle.blockplan.specs.Pass.{made_at, under, stepping};

use crate::leftover::padded;
use masks::steps::{alpha, beta};
use mem::cipher::encipher;
use words::block::{load, xor, zero};

// The sum with a leftover in it, padded with one byte and then zeros.
pub fn absorb_left(sum: [u64; 16], s: &[u8], pad: u8, mask: [u64; 16], rounds: u32) -> [u64; 16]
    requires { length s.now < 128 }
    ensures { result ≡ xor_block sum (encipher_of rounds mask (block_of (s.now ++ (pad ∷ [])))) }
{
    xor(sum, encipher(padded(s, pad), mask, rounds))
}

// A leftover's mask: the one that is next, or, apart from the whole blocks', a beta step on from it.
fn left_mask<const APART: bool>(mask: [u64; 16]) -> [u64; 16]
    ensures { result ≡ cond APART (beta_of mask) mask }
{
    if APART { beta(mask) } else { mask }
}

// The sum of all blocks of s, the first under the mask given. What is not yet taken in is handed on as the
// part from the next block on: to the next turn, and from the last one to the leftover's work.
// Kept: `rest` is shortened by hand and no iterator goes over the blocks, since document 01 names this form.
pub fn absorb<const APART: bool>(s: &[u8], first: [u64; 16], pad: u8, rounds: u32) -> [u64; 16]
    ensures { result ≡ xor_if (has_left s.now) (xor_over (made_at (under false rounds (stepping first)) s.now) (whole s.now)) (encipher_of rounds (cond APART (beta_of (stepping first (whole s.now))) (stepping first (whole s.now))) (block_of (left s.now ++ (pad ∷ [])))) }
{
    let mut rest = s;
    let mut sum = zero();
    let mut mask = first;
    while rest.len() >= 128 {
        let next = xor(sum, encipher(load(rest), mask, rounds));
        sum = next;
        let step = alpha(mask);
        mask = step;
        rest = &rest[128..];
    }
    if rest.len() == 0 {
        return sum;
    }
    absorb_left(sum, rest, pad, left_mask::<APART>(mask), rounds)
}
