// The checks of seal, open, convert and diagnose, and of sealing and opening from a run, over settings
// and lengths alone.

#![tactic(auto)]

ghost use Rattle.std.specs.Prelude.{◌≡◌, ◌<◌, get_or, length};
ghost use Rattle.answers.specs.Answers.{clear};
ghost use Rattle.checks.specs.Checks.{is_mode, round_counts, is_rounds, settings, seal_inputs, open_inputs, seal_checks, open_checks, convert_checks, run_length, seal_run_checks, open_run_checks};
ghost use Rattle.checks.specs.Requests.{request};

use answers::{Check, Ground, Refusal, room};

// The longest message, and the length of a tag.
const MOST_MESSAGE: usize = 65536;

const TAG: usize = 32;

// Mode 1 or 2.
#[tactic(auto, unfolding(crate::specs::Checks::is_mode))]
fn is_mode(mode: u32) -> bool
    ensures { result ≡ is_mode mode }
{
    matches!(mode, 1 | 2)
}

// The allowed round counts, in order.
const ROUND_COUNTS: [u32; 4] = [4, 6, 8, 12];

// Rounds 4, 6, 8 or 12.
#[tactic(auto, using(crate::proofs::Listed::any_is_rounds))]
fn is_rounds(rounds: u32) -> bool
    ensures { result ≡ is_rounds rounds }
{
    ROUND_COUNTS.contains(&rounds)
}

// Allowed count k.
#[tactic(auto, unfolding(crate::specs::Checks::round_counts))]
pub fn round_count(k: usize) -> u32
    requires { k < 4 }
    ensures { result ≡ get_or round_counts k 0 }
{
    ROUND_COUNTS[k]
}

// What a caller gives beside a message or a parcel.
// Kept: the mode is a number here and in a request, as C gives it: that it is a mode's is the first of the checks.
#[derive(Clone, Copy)]
pub struct Terms<'a> {
    pub mode: u32,
    pub rounds: u32,
    pub key: &'a [u8],
    pub nonce: &'a [u8],
    pub header: &'a [u8],
}

impl<'a> Terms<'a> {
    // What the checks read of a call on these terms, with an input of that length.
    pub fn request(&self, input: usize) -> Request
        ensures { result ≡ request self.now.mode self.now.rounds (length self.now.key.now) (length self.now.nonce.now) (length self.now.header.now) input }
    {
        Request {
            mode: self.mode,
            rounds: self.rounds,
            key: self.key.len(),
            nonce: self.nonce.len(),
            header: self.header.len(),
            input,
        }
    }
}

// What the checks read of a call: its settings, and the lengths of its inputs, of which the last is the
// message or the parcel.
#[derive(Clone, Copy)]
pub struct Request {
    pub mode: u32,
    pub rounds: u32,
    pub key: usize,
    pub nonce: usize,
    pub header: usize,
    pub input: usize,
}

impl Request {
    // What all check first.
    #[tactic(auto, unfolding(crate::specs::Checks::settings, answers::specs::Answers::line, answers::specs::Answers::line_at))]
    fn check_settings(self) -> Check
        ensures { result ≡ settings self.mode self.rounds self.key self.nonce self.header clear }
    {
        if !is_mode(self.mode) {
            return Err(Refusal::from(Ground::ModeNumber));
        }
        if !is_rounds(self.rounds) {
            return Err(Refusal::from(Ground::Rounds));
        }
        if self.key != 32 {
            return Err(Refusal::from(Ground::KeyLength));
        }
        if self.nonce != 16 {
            return Err(Refusal::from(Ground::NonceLength));
        }
        if self.header > 4096 {
            return Err(Refusal::from(Ground::HeaderLength));
        }
        Ok(())
    }

    // Seal's checks but for the output's length.
    #[tactic(auto, using(crate::proofs::Found::message_stopped, crate::proofs::Found::message_long, crate::proofs::Found::message_fits))]
    fn check_message(self) -> Check
        ensures { result ≡ seal_inputs self.mode self.rounds self.key self.nonce self.header self.input clear }
    {
        self.check_settings()?;
        if self.input > MOST_MESSAGE {
            return Err(Refusal::from(Ground::InputLength));
        }
        Ok(())
    }

    // Open's checks but for the output's length and the tag.
    #[tactic(auto, using(crate::proofs::Found::parcel_stopped, crate::proofs::Found::parcel_short, crate::proofs::Found::parcel_long, crate::proofs::Found::parcel_fits))]
    pub fn check_parcel(self) -> Check
        ensures { result ≡ open_inputs self.mode self.rounds self.key self.nonce self.header self.input clear }
    {
        self.check_settings()?;
        if self.input < TAG {
            return Err(Refusal::from(Ground::TagMissing));
        }
        if self.input > MOST_MESSAGE + TAG {
            return Err(Refusal::from(Ground::InputLength));
        }
        Ok(())
    }

    // Seal's checks.
    #[tactic(auto, using(crate::proofs::Found::seal_stopped, crate::proofs::Found::seal_room, crate::proofs::Found::message_most))]
    pub fn check_seal(self, out: usize) -> Check
        ensures { result ≡ seal_checks self.mode self.rounds self.key self.nonce self.header self.input out }
    {
        self.check_message()?;
        room(self.input + TAG, out)
    }

    // Open's checks but for the tag.
    #[tactic(auto, using(crate::proofs::Found::open_stopped, crate::proofs::Found::open_room, crate::proofs::Found::parcel_least))]
    pub fn check_open(self, out: usize) -> Check
        ensures { result ≡ open_checks self.mode self.rounds self.key self.nonce self.header self.input out }
    {
        self.check_parcel()?;
        room(self.input - TAG, out)
    }

    // Convert's checks but for the judgement of the parcel.
    #[tactic(auto, using(crate::proofs::Found::convert_stopped, crate::proofs::Found::convert_room))]
    pub fn check_convert(self, out: usize) -> Check
        ensures { result ≡ convert_checks self.mode self.rounds self.key self.nonce self.header self.input out }
    {
        self.check_parcel()?;
        room(self.input, out)
    }

    // The checks of sealing from a run.
    #[tactic(auto, using(crate::proofs::Found::seal_run_stopped, crate::proofs::Found::seal_run_room))]
    pub fn check_seal_run(self, out: usize, words: usize) -> Check
        ensures { result ≡ seal_run_checks self.mode self.rounds self.key self.nonce self.header self.input out words }
    {
        self.check_seal(out)?;
        room(run_length(self.header, self.input), words)
    }

    // The checks of opening from a run, but for the tag.
    #[tactic(auto, using(crate::proofs::Found::open_run_stopped, crate::proofs::Found::open_run_room, crate::proofs::Found::open_least))]
    pub fn check_open_run(self, out: usize, words: usize) -> Check
        ensures { result ≡ open_run_checks self.mode self.rounds self.key self.nonce self.header self.input out words }
    {
        self.check_open(out)?;
        room(run_length(self.header, self.input - TAG), words)
    }
}

// The words of a run for a header and a message of these lengths: the larger count of whole blocks, and
// 21, since the last masks reach five words beyond sixteen.
#[tactic(auto, unfolding(crate::specs::Checks::larger, crate::specs::Checks::run_length))]
pub fn run_length(header: usize, message: usize) -> usize
    ensures { result ≡ run_length header message }
{
    (header / 128).max(message / 128) + 21
}
