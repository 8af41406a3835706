// The two modes, over a start block.

#![tactic(auto)]

ghost use Rattle.std.specs.Prelude.{◌≡◌, ◌++◌, ◌+◌, ◌≤◌, length, drop};
ghost use Rattle.blockplan.specs.Parcel.{parcel_of, message_of, genuine, opened};
ghost use Rattle.modes.specs.Modes.{numbered, mode_of};

// A mode.
#[derive(Clone, Copy, Debug, PartialEq, Eq)]
pub enum Mode {
    Opp,
    Mro,
}

// The mode with a number: 1 is OPP, 2 is MRO, as is any other, which the checks let no call pass with.
// Kept: no TryFrom, which would give each call behind the checks an arm that never runs.
impl From<u32> for Mode {
    ghost from_gives = { λ number mode. mode ≡ numbered number };

    #[tactic(auto, unfolding(crate::specs::Modes::numbered))]
    fn from(mode: u32) -> Mode {
        if mode == 1 { Mode::Opp } else { Mode::Mro }
    }
}

// Kept: a number, as these contracts have it, which docs/PROMISES.md names; and a match in each of the four, since
// the number is known only when the call comes, so that each caller of a generic one would have it.

// The parcel of a message, to the front of the output.
#[tactic(auto, unfolding(crate::specs::Modes::mode_of, crate::specs::Modes::mode_over))]
pub fn seal(start: [u64; 16], mode: u32, rounds: u32, header: &[u8], message: &[u8], out: &mut [u8])
    requires { length message.now + 32 ≤ length out.old }
    ensures { out.new ≡ parcel_of (mode_of mode rounds start) header.now message.now ++ drop (length message.now + 32) out.old }
{
    match Mode::from(mode) {
        Mode::Opp => opp::seal(start, rounds, header, message, out),
        Mode::Mro => mro::seal(start, rounds, header, message, out),
    }
}

// Whether the parcel is genuine; the output's front is then its message, else zeros.
#[tactic(auto, unfolding(crate::specs::Modes::mode_of, crate::specs::Modes::mode_over))]
pub fn open(
    start: [u64; 16],
    mode: u32,
    rounds: u32,
    header: &[u8],
    parcel: &[u8],
    out: &mut [u8],
) -> bool
    requires { (32 ≤ length parcel.now) × (length parcel.now ≤ length out.old + 32) }
    ensures { (result, out.new) ≡ opened (mode_of mode rounds start) header.now parcel.now out.old }
{
    match Mode::from(mode) {
        Mode::Opp => opp::open(start, rounds, header, parcel, out),
        Mode::Mro => mro::open(start, rounds, header, parcel, out),
    }
}

// Whether the parcel is genuine, in one pass that writes nothing.
#[tactic(auto, unfolding(crate::specs::Modes::mode_of, crate::specs::Modes::mode_over))]
pub fn judge(start: [u64; 16], mode: u32, rounds: u32, header: &[u8], parcel: &[u8]) -> bool
    requires { 32 ≤ length parcel.now }
    ensures { result ≡ genuine (mode_of mode rounds start) header.now parcel.now }
{
    match Mode::from(mode) {
        Mode::Opp => opp_converting::judge(start, rounds, header, parcel),
        Mode::Mro => mro_converting::judge(start, rounds, header, parcel),
    }
}

// The parcel, under another start, of the message that this one holds, to the front of the output.
#[tactic(auto, unfolding(crate::specs::Modes::mode_of, crate::specs::Modes::mode_over))]
pub fn reseal(
    from: [u64; 16],
    to: [u64; 16],
    mode: u32,
    rounds: u32,
    header: &[u8],
    parcel: &[u8],
    out: &mut [u8],
)
    requires { (32 ≤ length parcel.now) × (length parcel.now ≤ length out.old) }
    ensures { out.new ≡ parcel_of (mode_of mode rounds to) header.now (message_of (mode_of mode rounds from) parcel.now) ++ drop (length parcel.now) out.old }
{
    match Mode::from(mode) {
        Mode::Opp => opp_converting::reseal(from, to, rounds, header, parcel, out),
        Mode::Mro => mro_converting::reseal(from, to, rounds, header, parcel, out),
    }
}
