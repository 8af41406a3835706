// OPP's parcels judged under a start, and sealed again from another: no plain byte goes to an output.

#![tactic(auto)]

ghost use Rattle.std.specs.Prelude.{◌≡◌, ◌++◌, ◌≤◌, length, drop};
ghost use Rattle.blockplan.specs.Parcel.{parcel_of, message_of, genuine};
ghost use Rattle.opp.specs.Opp.{opp_mode};

use crate::judging::check;
use crate::resealing::reseal_all;
use opp::tag::tag_block;
use tags::{agrees, store_tag};

mod judging;
mod resealing;

// Whether the parcel is genuine, in one pass that writes nothing.
pub fn judge(start: [u64; 16], rounds: u32, header: &[u8], parcel: &[u8]) -> bool
    requires { 32 ≤ length parcel.now }
    ensures { result ≡ genuine (opp_mode rounds start) header.now parcel.now }
{
    let n = parcel.len() - 32;
    let passed = check(start, rounds, &parcel[..n]);
    agrees(tag_block(start, rounds, header, passed), parcel)
}

// The parcel, under another start, of the message that this one holds.
pub fn reseal(
    from: [u64; 16],
    to: [u64; 16],
    rounds: u32,
    header: &[u8],
    parcel: &[u8],
    out: &mut [u8],
)
    requires { (32 ≤ length parcel.now) × (length parcel.now ≤ length out.old) }
    ensures { out.new ≡ parcel_of (opp_mode rounds to) header.now (message_of (opp_mode rounds from) parcel.now) ++ drop (length parcel.now) out.old }
{
    let n = parcel.len() - 32;
    let passed = reseal_all(from, to, rounds, &parcel[..n], out);
    store_tag(tag_block(to, rounds, header, passed), &mut out[n..]);
}
