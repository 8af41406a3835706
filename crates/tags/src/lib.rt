// The tag: written, compared, and what follows from the comparison.

#![tactic(auto)]

ghost use Rattle.std.specs.Prelude.{◌≡◌, cond, ◌++◌, ◌+◌, ◌≤◌, eqb, length, drop};
ghost use Rattle.words.specs.Sequence.{zeros};
ghost use Rattle.words.specs.Block.{block_of};
ghost use Rattle.blockplan.specs.Compare.{differing, verified};
ghost use Rattle.blockplan.specs.Parcel.{tag_part, same};
ghost use Rattle.blockplan.specs.Plan.{tag_bytes};

use words::word::{load_word, store_word};

// The first 32 bytes of a block, to the front of the output.
pub fn store_tag(b: [u64; 16], out: &mut [u8])
    requires { 32 ≤ length out.old }
    ensures { out.new ≡ tag_bytes b ++ drop 32 out.old }
{
    for i in 0..4 {
        let at = 8 * i;
        store_word(b[i], &mut out[at..]);
    }
}

// The bits in which the tag is wrong, so 0 where it is right: all four words are looked at, whether or
// not an early one differs.
fn difference(b: [u64; 16], tag: &[u8]) -> u64
    requires { length tag.now ≡ 32 }
    ensures { result ≡ differing b (block_of tag.now) 4 }
{
    let mut differ: u64 = 0;
    for i in 0..4 {
        let at = 8 * i;
        differ |= b[i] ^ load_word(&tag[at..]);
    }
    differ
}

// All bits where nothing differs, none where something does: by shifts, for a test would be
// compiled to a branch.
fn mask_of(differ: u64) -> u8
    ensures { result ≡ cond (eqb differ 0) 255 0 }
{
    let a = differ | (differ >> 32);
    let b = a | (a >> 16);
    let c = b | (b >> 8);
    let d = c | (c >> 4);
    let e = d | (d >> 2);
    let f = e | (e >> 1);
    255 * (1 - (f % 2) as u8)
}

// The first n bytes stay where nothing differs and become zero where something does, by the same
// steps in both cases.
fn keep(out: &mut [u8], n: usize, differ: u64)
    requires { n ≤ length out.old }
    ensures { out.new ≡ cond (eqb differ 0) out.old (zeros n ++ drop n out.old) }
{
    let mask = mask_of(differ);
    for x in out[..n].iter_mut() {
        *x &= mask;
    }
}

// Whether the parcel's tag is the first 32 bytes of the block expected. The output's bytes in the
// message's place stay where it is, and become zero where it is not.
pub fn verify(expected: [u64; 16], parcel: &[u8], out: &mut [u8]) -> bool
    requires { (32 ≤ length parcel.now) × (length parcel.now ≤ length out.old + 32) }
    ensures { (result, out.new) ≡ verified (tag_bytes expected) parcel.now out.old }
{
    let n = parcel.len() - 32;
    let differ = difference(expected, &parcel[n..]);
    keep(out, n, differ);
    differ == 0
}

// Whether the parcel's tag is the first 32 bytes of the block expected; nothing is written.
pub fn agrees(expected: [u64; 16], parcel: &[u8]) -> bool
    requires { 32 ≤ length parcel.now }
    ensures { result ≡ same (tag_bytes expected) (tag_part parcel.now) }
{
    let n = parcel.len() - 32;
    difference(expected, &parcel[n..]) == 0
}
