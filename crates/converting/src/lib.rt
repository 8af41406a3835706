// Convert: the checks in document 01's order, then the parcel judged under the old start and, where it
// does not open there, under the new one. Nothing is written before that.

#![tactic(auto)]

ghost use Rattle.std.specs.Prelude.{◌≡◌};
ghost use Rattle.converting.specs.Converting.{convert_call};

use answers::{Answer, Ground, Refusal};
use checks::Terms;
use mem::start::start;

// The parcel under the new start of a message that was sealed under the old one.
pub fn convert(of: &Terms<'_>, parcel: &[u8], out: &mut [u8]) -> Answer
    ensures { (result, out.new) ≡ convert_call of.now.mode of.now.rounds of.now.key.now of.now.nonce.now of.now.header.now parcel.now out.old }
{
    let n = parcel.len();
    of.request(n).check_convert(out.len())?;
    let old = start(true, of.key, of.nonce, of.rounds);
    let new = start(false, of.key, of.nonce, of.rounds);
    if modes::judge(old, of.mode, of.rounds, of.header, parcel) {
        modes::reseal(old, new, of.mode, of.rounds, of.header, parcel, out);
        return Ok(n as u64);
    }
    if modes::judge(new, of.mode, of.rounds, of.header, parcel) {
        return Err(Refusal::from(Ground::DoneAlready));
    }
    Err(Refusal::from(Ground::TagDiffers))
}
