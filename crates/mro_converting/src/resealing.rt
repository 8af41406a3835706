// The bytes under one stream brought under another, without what lies between.
ghost use Rattle.std.specs.Prelude.{◌≡◌, ◌++◌, ◌≤◌, length, drop};
ghost use Rattle.words.specs.Block.{xor_block};
ghost use Rattle.blockplan.specs.Plan.{tag_bytes};
ghost use Rattle.mro.specs.Mro.{mro_cipher};

use mro::stream::{Stream, TagStream, xor_blocks};
use words::block::xor;

// Two streams at once: what undoes one of them and puts the other on.
#[derive(Clone, Copy)]
struct Both {
    old: TagStream,
    new: TagStream,
}

impl Stream for Both {
    ghost nth = { λ b i. xor_block (⟦<TagStream as Stream>⟧.nth b.old i) (⟦<TagStream as Stream>⟧.nth b.new i) };

    fn block(&self, i: usize) -> [u64; 16] {
        xor(self.old.block(i), self.new.block(i))
    }
}

// The bytes xored with both streams, to the front of the output.
pub fn xor_streams(
    s: &[u8],
    old_tag: [u64; 16],
    from: [u64; 16],
    new_tag: [u64; 16],
    to: [u64; 16],
    rounds: u32,
    out: &mut [u8],
)
    requires { length s.now ≤ length out.old }
    ensures { out.new ≡ mro_cipher rounds to (tag_bytes new_tag) (mro_cipher rounds from (tag_bytes old_tag) s.now) ++ drop (length s.now) out.old }
{
    let old = TagStream::from_start(old_tag, from, rounds);
    let new = TagStream::from_start(new_tag, to, rounds);
    xor_blocks(&Both { old, new }, 0, s, out);
}
