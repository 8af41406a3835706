// Diagnose: open's checks up to 6, then the parcel judged under the setting asked and, where it does not
// open there, under the others in their order. Nothing is written.

#![tactic(auto)]

ghost use Rattle.std.specs.Prelude.{◌≡◌, false, ◌≢◌, ◌≤◌, ◌<◌, length};
ghost use Rattle.diagnosing.specs.Diagnosing.{sixteen, nth, differs, first_of, reason_for, start_under, opens_under, diagnose_call, differ_number, reason_number, reason_told};
ghost use Rattle.diagnosing.specs.Trying.{tries, within};

use answers::{Answer, Refusal};
use checks::{Terms, round_count};
use mem::start::start;

// A start, the old one or the new, a mode and a round count.
// Kept: the mode is a number here, since past the last setting `nth` has mode 0, which is neither mode.
#[derive(Clone, Copy, Debug, PartialEq, Eq)]
pub struct Setting {
    pub old: bool,
    pub mode: u32,
    pub rounds: u32,
}

// What differs from the setting asked.
#[derive(Clone, Copy, Debug, PartialEq, Eq)]
pub struct Differs {
    pub start: bool,
    pub mode: bool,
    pub rounds: bool,
}

// Why a parcel won't open as asked.
#[derive(Clone, Copy, Debug, PartialEq, Eq)]
pub enum Diagnosis {
    // It opens as asked.
    AsAsked,
    // The first of the sixteen settings that opens it, counted from 0, and what differs there.
    Other(u32, Differs),
    NoneOfSixteen,
}

// What differs between two settings.
#[tactic(auto, using(crate::proofs::Trying::unlike_is), unfolding(crate::specs::Diagnosing::differs))]
fn compare(asked: Setting, other: Setting) -> Differs
    ensures { result ≡ differs asked other }
{
    Differs {
        start: asked.old != other.old,
        mode: asked.mode != other.mode,
        rounds: asked.rounds != other.rounds,
    }
}

// Setting n of the sixteen.
#[tactic(auto, using(crate::proofs::Trying::nth_is))]
fn setting_at(n: u32) -> Setting
    requires { n < 16 }
    ensures { result ≡ nth sixteen n }
{
    let rounds = round_count((n % 4) as usize);
    Setting {
        old: 8 <= n,
        mode: 1 + n / 4 % 2,
        rounds,
    }
}

// A parcel to be judged, the setting under which it should open, and the start of that setting.
#[derive(Clone, Copy)]
struct Trial<'a> {
    of: Terms<'a>,
    parcel: &'a [u8],
    asked: Setting,
    known: [u64; 16],
    ghost lengths: { (length of.key.now ≡ 32) × (length of.nonce.now ≡ 16) },
    ghost tagged: { 32 ≤ length parcel.now },
    ghost started: { known ≡ start_under of.key.now of.nonce.now asked },
}

impl<'a> Trial<'a> {
    // The start of a setting: OPP, which comes first with each start and count, leaves its own for MRO, and
    // that of the setting asked is known.
    fn start_under(&self, s: Setting, left: [u64; 16]) -> [u64; 16]
        requires { s.mode ≢ 1 → left ≡ start_under self.now.of.key.now self.now.of.nonce.now s }
        ensures { result ≡ start_under self.now.of.key.now self.now.of.nonce.now s }
    {
        if s.mode != 1 {
            return left;
        }
        if self.asked.rounds == s.rounds && self.asked.old == s.old {
            return self.known;
        }
        start(s.old, self.of.key, self.of.nonce, s.rounds)
    }

    // Whether the parcel opens under a setting, over its start; the setting asked, which does not open it, is
    // not judged again.
    fn tries(&self, s: Setting, block: [u64; 16]) -> bool
        ensures { result ≡ tries self.now.asked s block self.now.of.header.now self.now.parcel.now }
    {
        if self.asked == s {
            return false;
        }
        modes::judge(block, s.mode, s.rounds, self.of.header, self.parcel)
    }

    // The number of the first of the sixteen settings that opens the parcel, where the one asked does not.
    // OPP comes before MRO, which finds the four starts that it left.
    fn first_opening(&self) -> Option<u32>
        requires { opens_under self.now.of.key.now self.now.of.nonce.now self.now.of.header.now self.now.parcel.now self.now.asked ≡ false }
        ensures { result ≡ within (first_of (opens_under self.now.of.key.now self.now.of.nonce.now self.now.of.header.now self.now.parcel.now) sixteen) }
    {
        let mut starts = [self.known; 4];
        for n in 0..16 {
            let s = setting_at(n);
            let k = (n % 4) as usize;
            let block = self.start_under(s, starts[k]);
            starts[k] = block;
            if self.tries(s, block) {
                return Some(n);
            }
        }
        None
    }

    // The reason.
    fn reason(&self) -> Diagnosis
        ensures { result ≡ reason_for (opens_under self.now.of.key.now self.now.of.nonce.now self.now.of.header.now self.now.parcel.now) self.now.asked }
    {
        let asked = self.asked;
        if modes::judge(
            self.known,
            asked.mode,
            asked.rounds,
            self.of.header,
            self.parcel,
        ) {
            return Diagnosis::AsAsked;
        }
        match self.first_opening() {
            Some(n) => Diagnosis::Other(n, compare(asked, setting_at(n))),
            None => Diagnosis::NoneOfSixteen,
        }
    }
}

// Why a parcel won't open under a setting.
pub fn diagnose(old: bool, of: &Terms<'_>, parcel: &[u8]) -> Result<Diagnosis, Refusal>
    ensures { result ≡ diagnose_call old of.now.mode of.now.rounds of.now.key.now of.now.nonce.now of.now.header.now parcel.now }
{
    of.request(parcel.len()).check_parcel()?;
    let asked = Setting {
        old,
        mode: of.mode,
        rounds: of.rounds,
    };
    let known = start(old, of.key, of.nonce, of.rounds);
    let trial = Trial {
        of: *of,
        parcel,
        asked,
        known,
    };
    Ok(trial.reason())
}

// What differs as a number.
impl From<Differs> for u64 {
    ghost from_gives = { λ d n. n ≡ differ_number d };

    #[tactic(auto, using(crate::proofs::Told::bit_is), unfolding(crate::specs::Diagnosing::differ_number))]
    fn from(d: Differs) -> u64 {
        u64::from(d.start) + 2 * u64::from(d.mode) + 4 * u64::from(d.rounds)
    }
}

// A diagnosis as a number.
impl From<Diagnosis> for u64 {
    ghost from_gives = { λ d n. n ≡ reason_number d };

    #[tactic(auto, using(crate::proofs::Told::differ_most), unfolding(crate::specs::Diagnosing::reason_number))]
    fn from(d: Diagnosis) -> u64 {
        match d {
            Diagnosis::AsAsked => 0,
            Diagnosis::Other(n, differ) => 1 + u64::from(n) + 32 * u64::from(differ),
            Diagnosis::NoneOfSixteen => 255,
        }
    }
}

// What the call found, as an answer, for C.
#[tactic(auto, unfolding(crate::specs::Diagnosing::reason_told))]
pub fn answer_of(found: Result<Diagnosis, Refusal>) -> Answer
    ensures { result ≡ reason_told found }
{
    Ok(u64::from(found?))
}
