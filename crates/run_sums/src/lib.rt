// The sum over blocks, each enciphered under its mask out of a run: four in a turn, then up to three one by
// one, and a padded leftover.

#![tactic(auto)]

ghost use Rattle.std.specs.Prelude.{◌≡◌, false, ◌++◌, ◌∷◌, [], ◌≤◌, ◌+◌, length};
ghost use Rattle.words.specs.Sequence.{fold};
ghost use Rattle.words.specs.Block.{block_of, xor_block};
ghost use Rattle.masks.specs.Run.{mask_from};
ghost use Rattle.mem.specs.Mem.{encipher as encipher_of};
ghost use Rattle.blockplan.specs.Plan.{whole, left, has_left, xor_over, xor_if};
ghost use Rattle.blockplan.specs.Pass.{made_at, under};
ghost use Rattle.quads.specs.Quads.{from_run};
ghost use Rattle.runs.specs.Kinds.{neighbours_in};

use blockplan::absorb::absorb_left;
use mem::cipher::encipher;
use quads::bytes::{load4, sum4};
use quads::four_masks::FromRun;
use quads::masked::encipher4;
use runs::kinds::Kind;
use runs::windows::mask_at;
use words::block::{load, xor, zero};

// The sum with the first four blocks of s in it, under the masks at words n to n + 3.
fn absorb_four(
    sum: [u64; 16],
    run: &[u64],
    n: usize,
    kind: Kind,
    rounds: u32,
    s: &[u8],
) -> [u64; 16]
    requires { (n + 21 ≤ length run.now) × (512 ≤ length s.now) }
    ensures { result ≡ fold (λ j t. xor_block t (made_at (under false rounds (from_run (neighbours_in kind) run.now n)) s.now j)) sum 4 }
{
    let masks = FromRun {
        words: run,
        at: n,
        kind,
    };
    sum4(sum, encipher4(load4(s), &masks, rounds))
}

// Kept: run, place and kind apart, here and below, and no FromRun, since the leftover's mask is of another kind.

// The sum with all blocks of s in it, one in a turn: the whole ones under the masks from word n on, and a
// leftover under the mask of kind last at the next word.
fn absorb_ones(
    sum: [u64; 16],
    run: &[u64],
    n: usize,
    kind: Kind,
    last: Kind,
    pad: u8,
    rounds: u32,
    s: &[u8],
) -> [u64; 16]
    requires { n + whole s.now + 18 ≤ length run.now }
    ensures { result ≡ xor_if (has_left s.now) (fold (λ j t. xor_block t (made_at (under false rounds (from_run (neighbours_in kind) run.now n)) s.now j)) sum (whole s.now)) (encipher_of rounds (mask_from (neighbours_in last) run.now (n + whole s.now)) (block_of (left s.now ++ (pad ∷ [])))) }
{
    let mut sum = sum;
    let mut rest = s;
    let count = s.len() / 128;
    for i in 0..count {
        let mask = mask_at(run, n + i, kind);
        let next = xor(sum, encipher(load(rest), mask, rounds));
        sum = next;
        rest = &rest[128..];
    }
    if rest.len() == 0 {
        return sum;
    }
    absorb_left(sum, rest, pad, mask_at(run, n + count, last), rounds)
}

// The sum of all blocks of s, block i under the mask at word i. What is not yet taken in is handed on as the
// part from the next block on: to the next four, then to those taken one by one, then to the leftover's work.
pub fn absorb(run: &[u64], kind: Kind, last: Kind, pad: u8, rounds: u32, s: &[u8]) -> [u64; 16]
    requires { whole s.now + 18 ≤ length run.now }
    ensures { result ≡ xor_if (has_left s.now) (xor_over (made_at (under false rounds (mask_from (neighbours_in kind) run.now)) s.now) (whole s.now)) (encipher_of rounds (mask_from (neighbours_in last) run.now (whole s.now)) (block_of (left s.now ++ (pad ∷ [])))) }
{
    let mut sum = zero();
    let mut rest = s;
    // Counted, since turns that the length of the rest ends take up to a thirtieth longer.
    let count = s.len() / 512;
    for i in 0..count {
        let next = absorb_four(sum, run, 4 * i, kind, rounds, rest);
        sum = next;
        rest = &rest[512..];
    }
    absorb_ones(sum, run, 4 * count, kind, last, pad, rounds, rest)
}
