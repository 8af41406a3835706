// Masks out of words that stand one behind the other, those of a run or of its gamma masks.
ghost use Rattle.std.specs.Prelude.{◌≡◌, ◌<◌, ◌≤◌, ◌+◌, length, drop, ◌++◌};
ghost use Rattle.words.specs.Sequence.{tab};
ghost use Rattle.words.specs.Block.{xor_block};
ghost use Rattle.masks.specs.Run.{neighbours, mask_from};
ghost use Rattle.runs.specs.Kinds.{neighbours_in};

use crate::kinds::Kind;
use words::block::xor;

// One word of a mask. The outermost callers name the kind: once all is inlined, one case is left.
#[tactic(auto, unfolding(masks::specs::Run::neighbours))]
pub fn mask_word(run: &[u64], t: usize, kind: Kind) -> u64
    requires { t + 2 < length run.now }
    ensures { result ≡ neighbours (neighbours_in kind) run.now t }
{
    match kind {
        Kind::Alpha => run[t],
        Kind::Beta => run[t + 1] ^ run[t],
        Kind::Gamma => run[t + 1 + 1] ^ run[t + 1] ^ run[t],
    }
}

// The mask that stands at word n.
pub fn mask_at(run: &[u64], n: usize, kind: Kind) -> [u64; 16]
    requires { n + 18 ≤ length run.now }
    ensures { result ≡ mask_from (neighbours_in kind) run.now n }
{
    let mut mask: [u64; 16] = [0; 16];
    for i in 0..16 {
        mask[i] = mask_word(run, n + i, kind);
    }
    mask
}

// The words of the gamma masks, so many as asked for, to the front of a buffer: each word of the run with
// its two neighbours.
pub fn gammas(run: &[u64], count: usize, masks: &mut [u64])
    requires { (count + 2 ≤ length run.now) × (count ≤ length masks.old) }
    ensures { masks.new ≡ tab (neighbours 2 run.now) count ++ drop count masks.old }
{
    for i in 0..count {
        let word = mask_word(run, i, Kind::Gamma);
        masks[i] = word;
    }
}

// Kept: three functions for one, two and three beta steps, as docs/PROMISES.md names them; the third is no case of a
// common form.

// The mask a beta step on from the one at word n: that mask xor the one a word on.
pub fn beta_of(run: &[u64], n: usize, kind: Kind) -> [u64; 16]
    requires { n + 19 ≤ length run.now }
    ensures { result ≡ xor_block (mask_from (neighbours_in kind) run.now (n + 1)) (mask_from (neighbours_in kind) run.now n) }
{
    xor(mask_at(run, n + 1, kind), mask_at(run, n, kind))
}

// The mask two beta steps on from the one at word n: what the two steps have in common cancels.
pub fn beta_twice_of(run: &[u64], n: usize, kind: Kind) -> [u64; 16]
    requires { n + 20 ≤ length run.now }
    ensures { result ≡ xor_block (mask_from (neighbours_in kind) run.now (n + 2)) (mask_from (neighbours_in kind) run.now n) }
{
    xor(mask_at(run, n + 2, kind), mask_at(run, n, kind))
}

// The mask three beta steps on from the one at word n.
pub fn beta_thrice_of(run: &[u64], n: usize, kind: Kind) -> [u64; 16]
    requires { n + 21 ≤ length run.now }
    ensures { result ≡ xor_block (xor_block (mask_from (neighbours_in kind) run.now (n + 2 + 1)) (mask_from (neighbours_in kind) run.now (n + 2))) (xor_block (mask_from (neighbours_in kind) run.now (n + 1)) (mask_from (neighbours_in kind) run.now n)) }
{
    xor(beta_of(run, n + 2, kind), beta_of(run, n, kind))
}
