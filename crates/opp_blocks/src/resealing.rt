// The whole blocks opened from one start and sealed from another.
ghost use Rattle.std.specs.Prelude.{◌≡◌, true, ◌++◌, ◌*◌, ◌≤◌, length, drop};
ghost use Rattle.words.specs.Sequence.{cat};
ghost use Rattle.words.specs.Block.{block_of, bytes_of, xor_block};
ghost use Rattle.mem.specs.Mem.{encipher as encipher_of, decipher as decipher_of};
ghost use Rattle.blockplan.specs.Plan.{whole, xor_over};
ghost use Rattle.blockplan.specs.Pass.{made_at, bytes_at, under, across, stepping};

use masks::steps::alpha;
use mem::cipher::{decipher, encipher};
use words::block::{load, store, xor, zero};

// The check over the blocks passed, and for the next block the mask that opens it and the mask that
// seals it.
#[derive(Clone, Copy)]
pub struct Resealed {
    pub sum: [u64; 16],
    pub from: [u64; 16],
    pub to: [u64; 16],
}

// One block: D of it into the check, and E of that to the front of the output.
fn reseal_block(
    sum: [u64; 16],
    from: [u64; 16],
    to: [u64; 16],
    rounds: u32,
    s: &[u8],
    out: &mut [u8],
) -> [u64; 16]
    requires { (128 ≤ length s.now) × (128 ≤ length out.old) }
    ensures out_after { out.new ≡ bytes_of (encipher_of rounds to (decipher_of rounds from (block_of s.now))) ++ drop 128 out.old }
    ensures value { result ≡ xor_block sum (decipher_of rounds from (block_of s.now)) }
{
    let plain = decipher(load(s), from, rounds);
    let more = xor(sum, plain);
    store(encipher(plain, to, rounds), out);
    more
}

// The whole blocks, each written at its own offset. No plain block leaves the stack.
pub fn reseal_blocks(
    first_from: [u64; 16],
    first_to: [u64; 16],
    rounds: u32,
    s: &[u8],
    out: &mut [u8],
) -> Resealed
    requires { length s.now ≤ length out.old }
    ensures out_after { out.new ≡ cat (bytes_at (across rounds (stepping first_from) (stepping first_to)) s.now) (whole s.now) ++ drop (128 * whole s.now) out.old }
    ensures sum_value { (result.sum ≡ xor_over (made_at (under true rounds (stepping first_from)) s.now) (whole s.now)) × ((result.from ≡ stepping first_from (whole s.now)) × (result.to ≡ stepping first_to (whole s.now))) }
{
    let mut sum = zero();
    let mut from = first_from;
    let mut to = first_to;
    for i in 0..s.len() / 128 {
        let at = 128 * i;
        let more = reseal_block(sum, from, to, rounds, &s[at..], &mut out[at..]);
        sum = more;
        let from_step = alpha(from);
        from = from_step;
        let to_step = alpha(to);
        to = to_step;
    }
    Resealed { sum, from, to }
}
