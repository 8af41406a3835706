// MRO under masks that all come out of one run of words, whose first sixteen are the start.

#![tactic(auto)]

ghost use Rattle.std.specs.Prelude.{◌≡◌, ◌++◌, ◌+◌, ◌-◌, ◌/◌, ◌≤◌, length, take, drop};
ghost use Rattle.blockplan.specs.Plan.{whole};
ghost use Rattle.blockplan.specs.Parcel.{parcel_of, opened};
ghost use Rattle.mro.specs.Mro.{mro_mode};

use crate::stream::xor_stream;
use crate::sums::tag_block;
use mro::stream::load_tag;
use runs::run::Run;
use tags::{store_tag, verify};

mod stream;
mod sums;

// Kept: beside mro, here and in open: what the two share is four calls in order, and each of these takes a run in place
// of a start. A trait over both would have a method for each.

// The parcel to the front of the output: the ciphertext and then the tag.
pub fn seal(run: &Run, rounds: u32, header: &[u8], message: &[u8], out: &mut [u8])
    requires { (whole header.now + 21 ≤ length run.now) × ((whole message.now + 21 ≤ length run.now) × (length message.now + 32 ≤ length out.old)) }
    ensures { out.new ≡ parcel_of (mro_mode rounds (take 16 run.now)) header.now message.now ++ drop (length message.now + 32) out.old }
{
    let n = message.len();
    let tag = tag_block(run, rounds, header, message);
    xor_stream(run, tag, rounds, message, out);
    store_tag(tag, &mut out[n..]);
}

// The message to the front of the output where the tag is right, and zeros where it is not.
pub fn open(run: &Run, rounds: u32, header: &[u8], parcel: &[u8], out: &mut [u8]) -> bool
    requires { (whole header.now + 21 ≤ length run.now) × (((length parcel.now - 32) / 128 + 21 ≤ length run.now) × ((32 ≤ length parcel.now) × (length parcel.now ≤ length out.old + 32))) }
    ensures { (result, out.new) ≡ opened (mro_mode rounds (take 16 run.now)) header.now parcel.now out.old }
{
    let n = parcel.len() - 32;
    let tag = load_tag(&parcel[n..]);
    xor_stream(run, tag, rounds, &parcel[..n], out);
    let expected = tag_block(run, rounds, header, &out[..n]);
    verify(expected, parcel, out)
}
