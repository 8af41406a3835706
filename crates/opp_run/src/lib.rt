// OPP under masks that all come out of one run of words, whose first sixteen are the start.

#![tactic(auto)]

ghost use Rattle.std.specs.Prelude.{◌≡◌, ◌++◌, ◌+◌, ◌-◌, ◌/◌, ◌≤◌, length, take, drop};
ghost use Rattle.blockplan.specs.Plan.{whole};
ghost use Rattle.blockplan.specs.Parcel.{parcel_of, opened};
ghost use Rattle.opp.specs.Opp.{opp_mode};

use crate::message::pass;
use crate::tag::tag_block;
use runs::run::Run;
use tags::{store_tag, verify};

mod message;
mod tag;

// Kept: beside opp, here and in open: what the two share is the order of three calls, and each of these takes a run in
// place of a start. A trait over both would have a method for each.

// The parcel to the front of the output: the ciphertext and then the tag.
pub fn seal(run: &Run, rounds: u32, header: &[u8], message: &[u8], out: &mut [u8])
    requires { (whole header.now + 21 ≤ length run.now) × ((whole message.now + 21 ≤ length run.now) × ((length message.now ≤ 65536) × (length message.now + 32 ≤ length out.old))) }
    ensures { out.new ≡ parcel_of (opp_mode rounds (take 16 run.now)) header.now message.now ++ drop (length message.now + 32) out.old }
{
    let check = pass::<false>(run, rounds, message, out);
    let at = message.len();
    store_tag(
        tag_block(run, rounds, header, message, check),
        &mut out[at..],
    );
}

// The message to the front of the output where the tag is right, and zeros where it is not.
pub fn open(run: &Run, rounds: u32, header: &[u8], parcel: &[u8], out: &mut [u8]) -> bool
    requires { (whole header.now + 21 ≤ length run.now) × (((length parcel.now - 32) / 128 + 21 ≤ length run.now) × ((32 ≤ length parcel.now) × ((length parcel.now ≤ 65568) × (length parcel.now ≤ length out.old + 32)))) }
    ensures { (result, out.new) ≡ opened (opp_mode rounds (take 16 run.now)) header.now parcel.now out.old }
{
    let n = parcel.len() - 32;
    let cipher = &parcel[..n];
    let check = pass::<true>(run, rounds, cipher, out);
    verify(tag_block(run, rounds, header, cipher, check), parcel, out)
}
