// The stream that a tag gives, xored into bytes.
ghost use Rattle.std.specs.Prelude.{◌≡◌, List, ℕ, ◌++◌, ◌≤◌, ◌<◌, ◌+◌, ◌/◌, ◌^◌, length, drop};
ghost use Rattle.words.specs.Block.{block_of};
ghost use Rattle.masks.specs.Steps.{gamma as gamma_of};
ghost use Rattle.mem.specs.Mem.{encipher as encipher_of};
ghost use Rattle.blockplan.specs.Plan.{ciphered, tag_bytes};
ghost use Rattle.mro.specs.Mro.{counter, mro_cipher};
ghost use Rattle.mro.specs.Streams.{stream_from, streamed_from, onward, xored};

use blockplan::leftover::xor_leftover;
use masks::steps::gamma;
use mem::cipher::encipher;
use words::block::{load, store, xor};
use words::word::load_word;

// The block that the tag's 32 bytes stand for: four words, and zeros.
pub fn load_tag(tag: &[u8]) -> [u64; 16]
    requires { length tag.now ≡ 32 }
    ensures { result ≡ block_of tag.now }
{
    let t0 = load_word(tag);
    let t1 = load_word(&tag[8..]);
    let t2 = load_word(&tag[16..]);
    let t3 = load_word(&tag[24..]);
    [t0, t1, t2, t3, 0, 0, 0, 0, 0, 0, 0, 0, 0, 0, 0, 0]
}

// The counter's block i: of the tag's block only the first four words count.
pub fn counter_block(tag: [u64; 16], i: usize) -> [u64; 16]
    ensures { result ≡ counter (tag_bytes tag) i }
{
    let t0 = tag[0];
    let t1 = tag[1];
    let t2 = tag[2];
    let t3 = tag[3];
    let count = i as u64;
    [t0, t1, t2, t3, 0, 0, 0, 0, 0, 0, 0, 0, 0, 0, 0, count]
}

// A stream of blocks, each had by its number.
pub trait Stream {
    ghost nth: { Self → ℕ → List ℕ };

    fn block(&self, i: usize) -> [u64; 16]
        ensures { result ≡ nth self.now i };
}

// The stream that a tag gives: the block that begins with the tag, and what enciphers its counters.
#[derive(Clone, Copy)]
pub struct TagStream {
    pub tag: [u64; 16],
    pub mask: [u64; 16],
    pub rounds: u32,
}

impl TagStream {
    // The stream from a start block, whose mask is a gamma step on from it.
    pub fn from_start(tag: [u64; 16], start: [u64; 16], rounds: u32) -> TagStream
        ensures { (result.tag ≡ tag) × ((result.mask ≡ gamma_of start) × (result.rounds ≡ rounds)) }
    {
        let mask = gamma(start);
        TagStream { tag, mask, rounds }
    }
}

impl Stream for TagStream {
    ghost nth = { λ t i. encipher_of t.rounds t.mask (counter (tag_bytes t.tag) i) };

    fn block(&self, i: usize) -> [u64; 16] {
        let tag = self.tag;
        let mask = self.mask;
        encipher(counter_block(tag, i), mask, self.rounds)
    }
}

// The bytes xored with the blocks of a stream from number n on, to the front of the output. Each block is
// written to the part of the output that begins at its own offset.
pub fn xor_blocks<S: Stream>(stream: &S, n: usize, s: &[u8], out: &mut [u8])
    requires { (length s.now ≤ length out.old) × (n + length s.now / 128 < 2 ^ 64) }
    ensures { out.new ≡ ciphered (xored (onward (S.nth stream.now) n)) (onward (S.nth stream.now) n) s.now ++ drop (length s.now) out.old }
{
    let whole = s.len() / 128;
    for i in 0..whole {
        let at = 128 * i;
        let block = xor(load(&s[at..]), stream.block(n + i));
        store(block, &mut out[at..]);
    }
    let at = 128 * whole;
    if at < s.len() {
        xor_leftover(&s[at..], stream.block(n + whole), &mut out[at..]);
    }
}

// The bytes xored with a tag's stream from block n on.
pub fn xor_stream_from(
    s: &[u8],
    tag: [u64; 16],
    n: usize,
    mask: [u64; 16],
    rounds: u32,
    out: &mut [u8],
)
    requires { (length s.now ≤ length out.old) × (n + length s.now / 128 < 2 ^ 64) }
    ensures { out.new ≡ ciphered (streamed_from rounds mask (tag_bytes tag) n) (stream_from rounds mask (tag_bytes tag) n) s.now ++ drop (length s.now) out.old }
{
    let stream = TagStream { tag, mask, rounds };
    xor_blocks(&stream, n, s, out);
}

// The bytes xored with the whole stream.
pub fn xor_stream(s: &[u8], tag: [u64; 16], start: [u64; 16], rounds: u32, out: &mut [u8])
    requires { length s.now ≤ length out.old }
    ensures { out.new ≡ mro_cipher rounds start (tag_bytes tag) s.now ++ drop (length s.now) out.old }
{
    let stream = TagStream::from_start(tag, start, rounds);
    xor_blocks(&stream, 0, s, out);
}
