// MRO's parcels judged under a start, and sealed again from another: no plain byte goes to an output.

#![tactic(auto)]

ghost use Rattle.std.specs.Prelude.{◌≡◌, ◌++◌, ◌≤◌, length, drop};
ghost use Rattle.blockplan.specs.Parcel.{parcel_of, message_of, genuine};
ghost use Rattle.mro.specs.Mro.{mro_mode};

use crate::judging::opened_tag;
use crate::resealing::xor_streams;
use mro::stream::load_tag;
use tags::{agrees, store_tag};

mod judging;
mod resealing;

// Whether the parcel is genuine, in one pass that writes nothing.
pub fn judge(start: [u64; 16], rounds: u32, header: &[u8], parcel: &[u8]) -> bool
    requires { 32 ≤ length parcel.now }
    ensures { result ≡ genuine (mro_mode rounds start) header.now parcel.now }
{
    agrees(opened_tag(start, start, rounds, header, parcel), parcel)
}

// The parcel, under another start, of the message that this one holds.
// Kept: no twin of OPP's, here and in judge: the message is opened once for its tag and once more under both
// streams, and there in one pass.
pub fn reseal(
    from: [u64; 16],
    to: [u64; 16],
    rounds: u32,
    header: &[u8],
    parcel: &[u8],
    out: &mut [u8],
)
    requires { (32 ≤ length parcel.now) × (length parcel.now ≤ length out.old) }
    ensures { out.new ≡ parcel_of (mro_mode rounds to) header.now (message_of (mro_mode rounds from) parcel.now) ++ drop (length parcel.now) out.old }
{
    let n = parcel.len() - 32;
    let old_tag = load_tag(&parcel[n..]);
    let new_tag = opened_tag(from, to, rounds, header, parcel);
    xor_streams(&parcel[..n], old_tag, from, new_tag, to, rounds, out);
    store_tag(new_tag, &mut out[n..]);
}
