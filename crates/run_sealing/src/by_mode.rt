// The two modes, over a run.
// Kept: both choose by a match, as in modes, since a mode's number is known only when the call comes.
ghost use Rattle.std.specs.Prelude.{◌≡◌, ◌++◌, ◌+◌, ◌-◌, ◌/◌, ◌≤◌, length, take, drop};
ghost use Rattle.blockplan.specs.Plan.{whole};
ghost use Rattle.blockplan.specs.Parcel.{parcel_of, opened};
ghost use Rattle.modes.specs.Modes.{mode_of};

use modes::Mode;
use runs::run::Run;

// The parcel of a message, to the front of the output.
#[tactic(auto, unfolding(modes::specs::Modes::mode_of, modes::specs::Modes::mode_over))]
pub fn seal(run: &Run, mode: u32, rounds: u32, header: &[u8], message: &[u8], out: &mut [u8])
    requires { (whole header.now + 21 ≤ length run.now) × ((whole message.now + 21 ≤ length run.now) × ((length message.now ≤ 65536) × (length message.now + 32 ≤ length out.old))) }
    ensures { out.new ≡ parcel_of (mode_of mode rounds (take 16 run.now)) header.now message.now ++ drop (length message.now + 32) out.old }
{
    match Mode::from(mode) {
        Mode::Opp => opp_run::seal(run, rounds, header, message, out),
        Mode::Mro => mro_run::seal(run, rounds, header, message, out),
    }
}

// Whether the parcel is genuine; the output's front is then its message, else zeros.
#[tactic(auto, unfolding(modes::specs::Modes::mode_of, modes::specs::Modes::mode_over))]
pub fn open(run: &Run, mode: u32, rounds: u32, header: &[u8], parcel: &[u8], out: &mut [u8]) -> bool
    requires { (whole header.now + 21 ≤ length run.now) × (((length parcel.now - 32) / 128 + 21 ≤ length run.now) × ((32 ≤ length parcel.now) × ((length parcel.now ≤ 65568) × (length parcel.now ≤ length out.old + 32)))) }
    ensures { (result, out.new) ≡ opened (mode_of mode rounds (take 16 run.now)) header.now parcel.now out.old }
{
    match Mode::from(mode) {
        Mode::Opp => opp_run::open(run, rounds, header, parcel, out),
        Mode::Mro => mro_run::open(run, rounds, header, parcel, out),
    }
}
