// The back steps: each gives the only block whose forward step gives the block at hand. In this text no
// branch and no index depends on a word's value.
ghost use Rattle.std.specs.Prelude.{◌≡◌, ◌+◌, ◌*◌, ◌<◌, length};
ghost use Rattle.words.specs.Sequence.{tab};
ghost use Rattle.masks.specs.Steps.{alpha, beta, gamma, OnlyBlock};
ghost use Rattle.back_steps.specs.BackSteps.{back_alpha, back_beta, back_gamma, chosen, beta_run, gamma_run, gamma_word};

use crate::tables::{BETA, GAMMA};
use words::word::{rotate_right, shift_left};

// Fifteen words move up by one place, and word 0 comes out of word 15.
pub fn back_alpha(s: [u64; 16]) -> [u64; 16]
    ensures { (result ≡ back_alpha s) × OnlyBlock alpha s result }
{
    let w = rotate_right(s[15] ^ shift_left(s[4], 13), 53);
    // Kept: the words one by one, as in alpha, since std's `rotate_right` of the array moves them through memory, at 69
    // instructions for 40.
    [
        w, s[0], s[1], s[2], s[3], s[4], s[5], s[6], s[7], s[8], s[9], s[10], s[11], s[12], s[13],
        s[14],
    ]
}

// The table's words at places at, at + step, .., each times a bit of e, xored.
#[tactic(auto, unfolding(crate::specs::BackSteps::chosen))]
fn choose(t: &[u64], at: usize, step: usize, e: u64) -> u64
    requires { at + step * 63 < length t.now }
    ensures { result ≡ chosen t.now at step e 64 }
{
    let mut r: u64 = 0;
    for n in 0..64 {
        r = (t[at + step * n] * ((e >> n) % 2)) ^ r;
    }
    r
}

// The sixteen words from x on whose neighbours differ by the words of b.
fn beta_run(b: [u64; 16], x: u64) -> [u64; 16]
    ensures { result ≡ tab (beta_run b x) 16 }
{
    let mut r = b;
    let mut u = x;
    for i in 0..16 {
        r[i] = u;
        u ^= b[i];
    }
    r
}

// Solves for the first word; the others follow.
pub fn back_beta(s: [u64; 16]) -> [u64; 16]
    ensures { (result ≡ back_beta s) × OnlyBlock beta s result }
{
    let p = beta_run(s, 0);
    let e = (p[15] ^ s[15]) ^ shift_left(p[5], 13);
    beta_run(s, choose(&BETA, 0, 1, e))
}

// The sixteen words from x, y on of which three neighbours, xored, give the words of b.
fn gamma_run(b: [u64; 16], x: u64, y: u64) -> [u64; 16]
    ensures { result ≡ tab (gamma_run b x y) 16 }
{
    let mut r = b;
    let mut u = x;
    let mut v = y;
    for i in 0..16 {
        r[i] = u;
        let w = (v ^ u) ^ b[i];
        u = v;
        v = w;
    }
    r
}

// One of the two words that backward gamma solves for.
#[tactic(auto, unfolding(crate::specs::BackSteps::gamma_word))]
fn gamma_word(t: &[u64], at: usize, e: u64, f: u64) -> u64
    requires { at + 254 < length t.now }
    ensures { result ≡ gamma_word t.now at e f }
{
    choose(t, at, 2, e) ^ choose(t, at + 128, 2, f)
}

// Solves for the first two words; the others follow.
pub fn back_gamma(s: [u64; 16]) -> [u64; 16]
    ensures { (result ≡ back_gamma s) × OnlyBlock gamma s result }
{
    let p = gamma_run(s, 0, 0);
    let u = (p[15] ^ p[14]) ^ s[14];
    let v = (u ^ p[15]) ^ s[15];
    let e = u ^ shift_left(p[5], 13);
    let f = v ^ shift_left(p[6], 13);
    let t = &GAMMA;
    gamma_run(s, gamma_word(t, 0, e, f), gamma_word(t, 1, e, f))
}
