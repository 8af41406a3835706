// Seal and open from a run of words in a lent buffer: the checks in order, the run grown
// from the start, and then a mode.

#![tactic(auto)]

ghost use Rattle.std.specs.Prelude.{◌≡◌, ◌≤◌, length, take};
ghost use Rattle.masks.specs.Run.{IsRun};
ghost use Rattle.mem.specs.Mem.{start_of};
ghost use Rattle.run_sealing.specs.RunSealing.{run_in, seal_run_call, open_run_call};

use answers::{Answer, Ground, Refusal};
use checks::{Terms, run_length};
use mem::start::start;
use runs::growing::grow;
use runs::run::Run;

mod by_mode;

// Grows the run of a start into the first words of the buffer.
fn grow_front(rounds: u32, key: &[u8], nonce: &[u8], long: usize, words: &mut [u64])
    requires { ((length key.now ≡ 32) × (length nonce.now ≡ 16)) × ((21 ≤ long) × (long ≤ length words.old)) }
    ensures buffer { words.new ≡ run_in (start_of rounds key.now nonce.now) long words.old }
    ensures run { IsRun (take long words.new) }
    ensures start { take 16 (take long words.new) ≡ start_of rounds key.now nonce.now }
    ensures len { length (take long words.new) ≡ long }
{
    grow(start(false, key, nonce, rounds), long - 16, words);
}

// Kept: with sealing's seal and open these share the order of the steps alone. The checks, the run in place of
// the start, and the buffer that holds it differ, and a trait over both would have a method for each step.

// The parcel of a message.
pub fn seal(of: &Terms<'_>, message: &[u8], out: &mut [u8], words: &mut [u64]) -> Answer
    ensures { (result, (out.new, words.new)) ≡ seal_run_call of.now.mode of.now.rounds of.now.key.now of.now.nonce.now of.now.header.now message.now out.old words.old }
{
    let n = message.len();
    of.request(n).check_seal_run(out.len(), words.len())?;
    let written = n + 32;
    let long = run_length(of.header.len(), n);
    grow_front(of.rounds, of.key, of.nonce, long, words);
    let run = Run::new(&words[..long]);
    by_mode::seal(&run, of.mode, of.rounds, of.header, message, out);
    Ok(written as u64)
}

// The message of a genuine parcel.
pub fn open(of: &Terms<'_>, parcel: &[u8], out: &mut [u8], words: &mut [u64]) -> Answer
    ensures { (result, (out.new, words.new)) ≡ open_run_call of.now.mode of.now.rounds of.now.key.now of.now.nonce.now of.now.header.now parcel.now out.old words.old }
{
    let n = parcel.len();
    of.request(n).check_open_run(out.len(), words.len())?;
    let written = n - 32;
    let long = run_length(of.header.len(), written);
    grow_front(of.rounds, of.key, of.nonce, long, words);
    // Made before the tag is compared: a call in the arm would be compiled to a branch on the tag.
    let differs = Refusal::from(Ground::TagDiffers);
    let run = Run::new(&words[..long]);
    if by_mode::open(&run, of.mode, of.rounds, of.header, parcel, out) {
        Ok(written as u64)
    } else {
        Err(differs)
    }
}
