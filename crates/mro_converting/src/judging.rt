// The message of a parcel summed as it is opened, block by block; it goes to no output.
ghost use Rattle.std.specs.Prelude.{◌≡◌, false, ◌≤◌, length};
ghost use Rattle.words.specs.Block.{block_of, bytes_of, xor_block, xor_bytes};
ghost use Rattle.mem.specs.Mem.{encipher as encipher_of, E};
ghost use Rattle.blockplan.specs.Plan.{tag_bytes, xor_over};
ghost use Rattle.blockplan.specs.Parcel.{message_of};
ghost use Rattle.blockplan.specs.Pass.{made_at, under, stepping};
ghost use Rattle.mro.specs.Mro.{blocks, mro_sum, lengths, mro_cipher, mro_mode};

use blockplan::leftover::xor_leftover;
use masks::steps::{alpha, beta};
use mem::cipher::encipher;
use mro::stream::{Stream, TagStream, load_tag};
use mro::sums::tag_from;
use words::block::{load, xor, zero};

// The sum, and in it the leftover xored with the stream's block, padded with zeros.
fn absorb_last(
    sum: [u64; 16],
    s: &[u8],
    stream: [u64; 16],
    mask: [u64; 16],
    rounds: u32,
) -> [u64; 16]
    requires { length s.now ≤ 128 }
    ensures { result ≡ xor_block sum (encipher_of rounds mask (block_of (xor_bytes s.now (bytes_of stream)))) }
{
    let mut bytes = [0u8; 128];
    xor_leftover(s, stream, &mut bytes);
    xor(sum, encipher(load(&bytes), mask, rounds))
}

// The sum of all blocks of what the stream makes of s, the first under the mask given.
fn absorb_opened(
    s: &[u8],
    tag: [u64; 16],
    from: [u64; 16],
    first: [u64; 16],
    rounds: u32,
) -> [u64; 16]
    ensures { result ≡ xor_over (made_at (under false rounds (stepping first)) (mro_cipher rounds from (tag_bytes tag) s.now)) (blocks s.now) }
{
    let stream = TagStream::from_start(tag, from, rounds);
    let mut sum = zero();
    let mut mask = first;
    let whole = s.len() / 128;
    for i in 0..whole {
        let at = 128 * i;
        let block = xor(load(&s[at..]), stream.block(i));
        let next = xor(sum, encipher(block, mask, rounds));
        sum = next;
        let step = alpha(mask);
        mask = step;
    }
    let at = 128 * whole;
    if at == s.len() {
        return sum;
    }
    absorb_last(sum, &s[at..], stream.block(whole), mask, rounds)
}

// The block that begins with the tag, under one start, of the message that a parcel holds under
// another.
pub fn opened_tag(
    from: [u64; 16],
    to: [u64; 16],
    rounds: u32,
    header: &[u8],
    parcel: &[u8],
) -> [u64; 16]
    requires { 32 ≤ length parcel.now }
    ensures { result ≡ E rounds to 0 2 0 (xor_block (mro_sum rounds to header.now (message_of (mro_mode rounds from) parcel.now)) (lengths header.now (message_of (mro_mode rounds from) parcel.now))) }
{
    let n = parcel.len() - 32;
    let tag = load_tag(&parcel[n..]);
    let sum = absorb_opened(&parcel[..n], tag, from, beta(to), rounds);
    tag_from(to, rounds, header, sum, n)
}
