// MRO over a start block and a round count: the tag of header and message, and the message under the
// stream that the tag gives.

#![tactic(auto)]

ghost use Rattle.std.specs.Prelude.{◌≡◌, ◌++◌, ◌+◌, ◌≤◌, length, drop};
ghost use Rattle.blockplan.specs.Parcel.{parcel_of, opened};
ghost use Rattle.mro.specs.Mro.{mro_mode};

use crate::stream::{load_tag, xor_stream};
use crate::sums::tag_block;
use tags::{store_tag, verify};

pub mod stream;
pub mod sums;

// The parcel to the front of the output: the ciphertext and then the tag.
// Kept: no twin of OPP's, here and in open: the tag comes first here, since the stream comes from it, and
// last there, from the check that the one pass ends with.
pub fn seal(start: [u64; 16], rounds: u32, header: &[u8], message: &[u8], out: &mut [u8])
    requires { length message.now + 32 ≤ length out.old }
    ensures { out.new ≡ parcel_of (mro_mode rounds start) header.now message.now ++ drop (length message.now + 32) out.old }
{
    let n = message.len();
    let tag = tag_block(start, rounds, header, message);
    xor_stream(message, tag, start, rounds, out);
    store_tag(tag, &mut out[n..]);
}

// The message to the front of the output where the tag is right, and zeros where it is not.
pub fn open(start: [u64; 16], rounds: u32, header: &[u8], parcel: &[u8], out: &mut [u8]) -> bool
    requires { (32 ≤ length parcel.now) × (length parcel.now ≤ length out.old + 32) }
    ensures { (result, out.new) ≡ opened (mro_mode rounds start) header.now parcel.now out.old }
{
    let n = parcel.len() - 32;
    let tag = load_tag(&parcel[n..]);
    xor_stream(&parcel[..n], tag, start, rounds, out);
    let expected = tag_block(start, rounds, header, &out[..n]);
    verify(expected, parcel, out)
}
