// One block, sealed or opened.
ghost use Rattle.std.specs.Prelude.{◌≡◌, cond, ◌++◌, ◌≤◌, length, drop};
ghost use Rattle.words.specs.Block.{block_of, bytes_of, xor_block};
ghost use Rattle.mem.specs.Mem.{encipher as encipher_of, decipher as decipher_of};

use mem::cipher::{decipher, encipher};
use words::block::{load, store, xor};

// E of the block to the front of the output, and the block itself into the check; opening, D of it to
// both. The direction is a const parameter, so that neither way asks for it in a turn.
pub fn pass_block<const OPENING: bool>(
    sum: [u64; 16],
    mask: [u64; 16],
    rounds: u32,
    s: &[u8],
    out: &mut [u8],
) -> [u64; 16]
    requires { (128 ≤ length s.now) × (128 ≤ length out.old) }
    ensures out_after { out.new ≡ bytes_of (cond OPENING (decipher_of rounds mask (block_of s.now)) (encipher_of rounds mask (block_of s.now))) ++ drop 128 out.old }
    ensures value { result ≡ xor_block sum (cond OPENING (decipher_of rounds mask (block_of s.now)) (block_of s.now)) }
{
    let given = load(s);
    if OPENING {
        let made = decipher(given, mask, rounds);
        store(made, out);
        return xor(sum, made);
    }
    let more = xor(sum, given);
    store(encipher(given, mask, rounds), out);
    more
}
