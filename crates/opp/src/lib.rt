// OPP over a start block and a round count: one pass over the message, whose masks step on from
// block to block.

#![tactic(auto)]

ghost use Rattle.std.specs.Prelude.{◌≡◌, ◌++◌, ◌+◌, ◌≤◌, length, drop};
ghost use Rattle.blockplan.specs.Parcel.{parcel_of, opened};
ghost use Rattle.opp.specs.Opp.{opp_mode};

use crate::message::pass;
use crate::tag::tag_block;
use tags::{store_tag, verify};

pub mod message;
pub mod tag;

// The parcel to the front of the output: the ciphertext and then the tag.
// Kept: start and rounds apart, here and below: each part of the work steps the start on to a mask of its
// own and hands only the count along, so that a struct would be taken apart at each call.
pub fn seal(start: [u64; 16], rounds: u32, header: &[u8], message: &[u8], out: &mut [u8])
    requires { length message.now + 32 ≤ length out.old }
    ensures { out.new ≡ parcel_of (opp_mode rounds start) header.now message.now ++ drop (length message.now + 32) out.old }
{
    let passed = pass::<false>(start, rounds, message, out);
    let at = message.len();
    store_tag(tag_block(start, rounds, header, passed), &mut out[at..]);
}

// The message to the front of the output where the tag is right, and zeros where it is not.
pub fn open(start: [u64; 16], rounds: u32, header: &[u8], parcel: &[u8], out: &mut [u8]) -> bool
    requires { (32 ≤ length parcel.now) × (length parcel.now ≤ length out.old + 32) }
    ensures { (result, out.new) ≡ opened (opp_mode rounds start) header.now parcel.now out.old }
{
    let n = parcel.len() - 32;
    let passed = pass::<true>(start, rounds, &parcel[..n], out);
    verify(tag_block(start, rounds, header, passed), parcel, out)
}
