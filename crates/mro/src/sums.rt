// Header and message summed, and the block that begins with their tag.
ghost use Rattle.std.specs.Prelude.{◌≡◌, false, ◌++◌, ◌∷◌, [], length};
ghost use Rattle.words.specs.Sequence.{zeros};
ghost use Rattle.words.specs.Block.{xor_block};
ghost use Rattle.mem.specs.Mem.{encipher as encipher_of, E};
ghost use Rattle.blockplan.specs.Plan.{xor_over};
ghost use Rattle.blockplan.specs.Pass.{made_at, under, stepping};
ghost use Rattle.mro.specs.Mro.{blocks, mro_sum, lengths};

use blockplan::absorb::absorb;
use masks::steps::beta;
use mem::cipher::encipher;
use words::block::xor;

// The sum of all blocks of s, one padded with zeros included, the first under the mask given.
fn absorb_all(s: &[u8], first: [u64; 16], rounds: u32) -> [u64; 16]
    ensures { result ≡ xor_over (made_at (under false rounds (stepping first)) s.now) (blocks s.now) }
{
    absorb::<false>(s, first, 0, rounds)
}

// E of the sum xor the two lengths: the block whose first 32 bytes are the tag.
pub fn tag_under(
    sum: [u64; 16],
    header_len: usize,
    message_len: usize,
    mask: [u64; 16],
    rounds: u32,
) -> [u64; 16]
    ensures { result ≡ encipher_of rounds mask (xor_block sum (zeros 14 ++ (header_len ∷ message_len ∷ []))) }
{
    let h = header_len as u64;
    let m = message_len as u64;
    let both = [0, 0, 0, 0, 0, 0, 0, 0, 0, 0, 0, 0, 0, 0, h, m];
    encipher(xor(sum, both), mask, rounds)
}

// The block whose first 32 bytes are the tag, from the sum over the message's blocks and the
// message's length.
// Kept: start and rounds apart: header, message and tag each have a mask stepped on from the start, and
// only the count goes along, so that a struct would be taken apart at each call.
pub fn tag_from(
    start: [u64; 16],
    rounds: u32,
    header: &[u8],
    message_sum: [u64; 16],
    message_len: usize,
) -> [u64; 16]
    ensures { result ≡ E rounds start 0 2 0 (xor_block (xor_block (xor_over (made_at (under false rounds (stepping start)) header.now) (blocks header.now)) message_sum) (zeros 14 ++ (length header.now ∷ message_len ∷ []))) }
{
    let sum = xor(absorb_all(header, start, rounds), message_sum);
    tag_under(sum, header.len(), message_len, beta(beta(start)), rounds)
}

// The block whose first 32 bytes are the tag.
pub fn tag_block(start: [u64; 16], rounds: u32, header: &[u8], message: &[u8]) -> [u64; 16]
    ensures { result ≡ E rounds start 0 2 0 (xor_block (mro_sum rounds start header.now message.now) (lengths header.now message.now)) }
{
    let once = beta(start);
    let sum = absorb_all(message, once, rounds);
    tag_from(start, rounds, header, sum, message.len())
}
