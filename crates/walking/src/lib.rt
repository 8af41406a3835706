// Walk and jump: a mask moved on and back by alpha, beta and gamma steps, over lent bytes.

#![tactic(auto)]

pub mod counts;
pub mod steps;

ghost use Rattle.std.specs.Prelude.{◌≡◌};
ghost use Rattle.walking.specs.Walking.{walk_checks, jump_checks, walk_call, jump_call};

use answers::{Answer, Check, Ground, Refusal, room};
use back_steps::back;
use counts::{all_in_range, repeat_net};
use masks::steps as forward;
use steps::{first_bad, take_all};
use words::block::{load, store};

// The most steps a list may have.
const MOST_STEPS: usize = 4096;

// Walk's checks.
#[tactic(auto, unfolding(crate::specs::Walking::walk_checks, answers::specs::Answers::line, answers::specs::Answers::line_at))]
fn check_walk(start: usize, list: &[u8], out: usize) -> Check
    ensures { result ≡ walk_checks start list.now out }
{
    if start != 128 {
        return Err(Refusal::from(Ground::StartLength));
    }
    if list.len() > MOST_STEPS {
        return Err(Refusal::from(Ground::ListLength));
    }
    let at = first_bad(list);
    if at < list.len() {
        return Err(Ground::StepByte.at(at as u64));
    }
    room(128, out)
}

// The block reached from the start by taking each step of the list in turn.
pub fn walk(start: &[u8], list: &[u8], out: &mut [u8]) -> Answer
    ensures { (result, out.new) ≡ walk_call start.now list.now out.old }
{
    check_walk(start.len(), list, out.len())?;
    let end = take_all(load(start), list);
    store(end, out);
    Ok(128)
}

// Jump's checks.
#[tactic(auto, unfolding(crate::specs::Walking::jump_checks, answers::specs::Answers::line, answers::specs::Answers::line_at))]
fn check_jump(start: usize, alpha: i32, beta: i32, gamma: i32, out: usize) -> Check
    ensures { result ≡ jump_checks start alpha beta gamma out }
{
    if start != 128 {
        return Err(Refusal::from(Ground::StartLength));
    }
    if !all_in_range(alpha, beta, gamma) {
        return Err(Refusal::from(Ground::NetCount));
    }
    room(128, out)
}

// The block after that many alpha, then beta, then gamma steps, back steps where negative.
pub fn jump(start: &[u8], alpha: i32, beta: i32, gamma: i32, out: &mut [u8]) -> Answer
    ensures { (result, out.new) ≡ jump_call start.now alpha beta gamma out.old }
{
    check_jump(start.len(), alpha, beta, gamma, out.len())?;
    let one = repeat_net(load(start), forward::alpha, back::back_alpha, alpha);
    let two = repeat_net(one, forward::beta, back::back_beta, beta);
    let three = repeat_net(two, forward::gamma, back::back_gamma, gamma);
    store(three, out);
    Ok(128)
}
