// Seal, open and open_old: the checks in document 01's order, then a mode over a start.

#![tactic(auto)]

ghost use Rattle.std.specs.Prelude.{◌≡◌};
ghost use Rattle.sealing.specs.Sealing.{seal_call, open_call, open_old_call, open_from};
ghost use Rattle.mem.specs.Mem.{start_for};

use answers::{Answer, Ground, Refusal};
use checks::Terms;
use mem::start::start;

// The parcel of a message.
pub fn seal(of: &Terms<'_>, message: &[u8], out: &mut [u8]) -> Answer
    ensures { (result, out.new) ≡ seal_call of.now.mode of.now.rounds of.now.key.now of.now.nonce.now of.now.header.now message.now out.old }
{
    let n = message.len();
    of.request(n).check_seal(out.len())?;
    let written = n + 32;
    let first = start(false, of.key, of.nonce, of.rounds);
    modes::seal(first, of.mode, of.rounds, of.header, message, out);
    Ok(written as u64)
}

// The message of a parcel that is genuine under the start asked for.
fn open_from(old: bool, of: &Terms<'_>, parcel: &[u8], out: &mut [u8]) -> Answer
    ensures { (result, out.new) ≡ open_from (start_for old) of.now.mode of.now.rounds of.now.key.now of.now.nonce.now of.now.header.now parcel.now out.old }
{
    let n = parcel.len();
    of.request(n).check_open(out.len())?;
    let written = n - 32;
    let first = start(old, of.key, of.nonce, of.rounds);
    // Made before the tag is compared: a call in the arm would be compiled to a branch on the tag.
    let differs = Refusal::from(Ground::TagDiffers);
    if modes::open(first, of.mode, of.rounds, of.header, parcel, out) {
        Ok(written as u64)
    } else {
        Err(differs)
    }
}

// The message of a genuine parcel.
// Kept: open and open_old are two calls of C, and both are open_from, which takes the start.
pub fn open(of: &Terms<'_>, parcel: &[u8], out: &mut [u8]) -> Answer
    ensures { (result, out.new) ≡ open_call of.now.mode of.now.rounds of.now.key.now of.now.nonce.now of.now.header.now parcel.now out.old }
{
    open_from(false, of, parcel, out)
}

// The message of a parcel that was sealed under the old start; nothing seals under it any more.
pub fn open_old(of: &Terms<'_>, parcel: &[u8], out: &mut [u8]) -> Answer
    ensures { (result, out.new) ≡ open_old_call of.now.mode of.now.rounds of.now.key.now of.now.nonce.now of.now.header.now parcel.now out.old }
{
    open_from(true, of, parcel, out)
}
