// The whole blocks opened for their check alone.
ghost use Rattle.std.specs.Prelude.{◌≡◌, true};
ghost use Rattle.blockplan.specs.Plan.{whole, xor_over};
ghost use Rattle.blockplan.specs.Pass.{made_at, under, stepping};

use blockplan::Summed;
use masks::steps::alpha;
use mem::cipher::decipher;
use words::block::{load, xor, zero};

// The check over the whole blocks as they are when opened, and the mask of the next block; nothing
// is written.
// Kept: `rest` is shortened by hand, as in blockplan's absorb, so that the same laws prove both; and beside absorb,
// which goes on to the leftover, where here the caller does.
pub fn check_blocks(first: [u64; 16], rounds: u32, s: &[u8]) -> Summed
    ensures { (result.sum ≡ xor_over (made_at (under true rounds (stepping first)) s.now) (whole s.now)) × (result.mask ≡ stepping first (whole s.now)) }
{
    let mut rest = s;
    let mut sum = zero();
    let mut mask = first;
    while rest.len() >= 128 {
        let next = xor(sum, decipher(load(rest), mask, rounds));
        sum = next;
        let step = alpha(mask);
        mask = step;
        rest = &rest[128..];
    }
    Summed { sum, mask }
}
