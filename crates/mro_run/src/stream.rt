// The stream that a tag gives, xored into bytes: four blocks in a turn, then the rest.
ghost use Rattle.std.specs.Prelude.{◌≡◌, ◌++◌, ◌≤◌, ◌<◌, ◌+◌, ◌*◌, ◌/◌, ◌^◌, length, take, drop};
ghost use Rattle.words.specs.Sequence.{cat};
ghost use Rattle.blockplan.specs.Plan.{tag_bytes};
ghost use Rattle.blockplan.specs.Pass.{bytes_at};
ghost use Rattle.quads.specs.Quads.{FourAre};
ghost use Rattle.mro.specs.Mro.{counter, mro_cipher};
ghost use Rattle.mro.specs.Streams.{streamed_from};

use mro::stream::{counter_block, xor_stream_from};
use quads::Four;
use quads::bytes::{load4, store4, xor4};
use quads::masked::encipher4;
use runs::kinds::Kind;
use runs::run::Run;
use runs::windows::mask_at;

// The counter's blocks n to n + 3.
fn counters(tag: [u64; 16], n: usize) -> Four
    requires { n + 3 < 2 ^ 64 }
    ensures { FourAre result (λ m. counter (tag_bytes tag) (n + m)) }
{
    Four {
        a: counter_block(tag, n + 0),
        b: counter_block(tag, n + 1),
        c: counter_block(tag, n + 2),
        d: counter_block(tag, n + 3),
    }
}

// Kept: tag, mask and rounds apart and no TagStream, since four blocks are made of them at once and not one by one.

// The first four blocks of s xored with the stream's blocks n to n + 3, to the front of the output.
fn stream_four(tag: [u64; 16], n: usize, mask: [u64; 16], rounds: u32, s: &[u8], out: &mut [u8])
    requires { (n + 3 < 2 ^ 64) × ((512 ≤ length s.now) × (512 ≤ length out.old)) }
    ensures { out.new ≡ cat (bytes_at (streamed_from rounds mask (tag_bytes tag) n) s.now) 4 ++ drop 512 out.old }
{
    let made = encipher4(counters(tag, n), &mask, rounds);
    let given = load4(s);
    store4(xor4(given, made), out);
}

// The blocks in fours, from the front.
fn stream_fours(tag: [u64; 16], mask: [u64; 16], rounds: u32, s: &[u8], out: &mut [u8])
    requires { length s.now ≤ length out.old }
    ensures { out.new ≡ cat (bytes_at (streamed_from rounds mask (tag_bytes tag) 0) s.now) (4 * (length s.now / 512)) ++ drop (128 * (4 * (length s.now / 512))) out.old }
{
    let count = s.len() / 512;
    for i in 0..count {
        let n = 4 * i;
        let at = 128 * n;
        stream_four(tag, n, mask, rounds, &s[at..], &mut out[at..]);
    }
}

// The bytes xored with the stream, to the front of the output.
pub fn xor_stream(run: &Run, tag: [u64; 16], rounds: u32, s: &[u8], out: &mut [u8])
    requires { (21 ≤ length run.now) × (length s.now ≤ length out.old) }
    ensures { out.new ≡ mro_cipher rounds (take 16 run.now) (tag_bytes tag) s.now ++ drop (length s.now) out.old }
{
    let mask = mask_at(run.words(), 0, Kind::Gamma);
    stream_fours(tag, mask, rounds, s, out);
    let n = 4 * (s.len() / 512);
    let at = 128 * n;
    xor_stream_from(&s[at..], tag, n, mask, rounds, &mut out[at..]);
}
