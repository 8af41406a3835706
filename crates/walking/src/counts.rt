// Net counts, which may be negative.
ghost use Rattle.std.specs.Prelude.{◌≡◌, ◌&&◌, ◌+◌, ◌≤◌, List, ℕ};
ghost use Rattle.walking.specs.Walking.{step, net_steps, in_range, DoesAs};

use crate::steps::{repeat, take_one};

// From -65,536 to 65,536.
#[tactic(auto, unfolding(crate::specs::Walking::in_range))]
fn in_range(z: i32) -> bool
    ensures { result ≡ in_range z }
{
    z.unsigned_abs() <= 65536
}

// Each of three counts.
pub fn all_in_range(a: i32, b: i32, c: i32) -> bool
    ensures { result ≡ (in_range a && (in_range b && in_range c)) }
{
    in_range(a) && in_range(b) && in_range(c)
}

// A step that many times, its back step where the count is negative.
pub fn repeat_net<F, G>(start: [u64; 16], forward: F, back: G, z: i32) -> [u64; 16]
where
    F: Fn([u64; 16]) -> [u64; 16],
    G: Fn([u64; 16]) -> [u64; 16],
    requires forward { F.IsAlwaysCallable forward }
    requires back { G.IsAlwaysCallable back }
    ensures { (f g : List ℕ → List ℕ) → DoesAs (F.post forward) f → DoesAs (G.post back) g → result ≡ net_steps f g z start }
{
    if z < 0 {
        repeat(start, back, z.unsigned_abs())
    } else {
        repeat(start, forward, z.unsigned_abs())
    }
}

// The same for callers who have a step's number, from 1 to 3, and no functions for it.
pub fn take_net(start: [u64; 16], kind: u8, z: i32) -> [u64; 16]
    requires { (1 ≤ kind) × (kind ≤ 3) }
    ensures { result ≡ net_steps (step kind) (step (kind + 3)) z start }
{
    let opposite = kind + 3;
    let forward = |b|
        ensures { result ≡ step kind b }
    { take_one(b, kind) };
    let back = |b|
        ensures { result ≡ step opposite b }
    { take_one(b, opposite) };
    repeat_net(start, forward, back, z)
}
