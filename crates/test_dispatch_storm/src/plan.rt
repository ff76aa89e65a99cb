//! The steps of a storm, at random by a seed.
ghost use Rattle.std.specs.Prelude.{◌≡◌, ◌<◌, true, All, IfOk, IfSome};
ghost use Rattle.jm_core.specs.Steps.{IsFitStep};
ghost use Rattle.test_dispatch_storm.specs.Runners.{AreFitSteps};

use jm_model::{Binding, Letter, Monitor, NoMemory, Step};
use std::alloc::Global;
use testkit_steps::Draw;

/// How many objects the first parameter is bound to: the first ones. The second is bound to the others.
const SHARED: u32 = 4;

/// How large a storm is: in each round each seat does so many steps.
#[derive(Clone, Copy)]
pub(crate) struct Plan {
    pub seats: u32,
    pub rounds: u32,
    pub steps: u32,
    pub objects: u32,
    pub seed: u32,
}

/// The steps of each round.
pub(crate) fn rounds_of<M: Monitor>(
    alloc: Global,
    rules: &M,
    plan: Plan,
) -> Result<Vec<Vec<Step>>, NoMemory>
    ensures { IfOk result (λ rounds. All
        (λ steps. AreFitSteps (M.meaning (M.definition rules.now)) plan.objects steps.items) rounds.items) }
{
    let mut draw = Draw::new(plan.seed);
    let mut rounds = Vec::new(alloc);
    for _round in 0..plan.rounds {
        rounds.push(round_of(alloc, rules, &mut draw, plan)?)?;
    }
    Ok(rounds)
}

/// The steps of a round, of all seats.
fn round_of<M: Monitor>(
    alloc: Global,
    rules: &M,
    draw: &mut Draw,
    plan: Plan,
) -> Result<Vec<Step>, NoMemory>
    ensures { IfOk result (λ steps. AreFitSteps (M.meaning (M.definition rules.now)) plan.objects steps.items) }
{
    let mut steps = Vec::new(alloc);
    for _step in 0..plan.seats.wrapping_mul(plan.steps) {
        if let Some(step) = drawn(rules, draw, plan.objects) {
            steps.push(step)?;
        }
    }
    Ok(steps)
}

/// A step: mostly an event, seldom a death.
fn drawn<M: Monitor>(rules: &M, draw: &mut Draw, objects: u32) -> Option<Step>
    ensures { IfSome result (λ step. IsFitStep (M.meaning (M.definition rules.now)) objects step) }
{
    match draw.below(60) {
        0 => death(draw.below(objects), objects),
        1..=5 => Some(Step::Pass),
        number => {
            let shared = draw.below(SHARED);
            let other = draw.below(objects.saturating_sub(SHARED));
            let both = [shared, other.saturating_add(SHARED)];
            event(rules, Letter((number % 3) as u8), &both, objects)
        }
    }
}

fn death(object: u32, objects: u32) -> Option<Step>
    ensures { IfSome result (λ step. step ≡ Step.Death object × (object < objects)) }
{
    if object < objects {
        Some(Step::Death { object })
    } else {
        None
    }
}

/// The event of a letter on those of two objects that it binds: the first, the second or both.
fn event<M: Monitor>(rules: &M, letter: Letter, both: &[u32; 2], objects: u32) -> Option<Step>
    ensures { IfSome result (λ step. IsFitStep (M.meaning (M.definition rules.now)) objects step) }
{
    if letter.0 >= rules.letters() {
        return None;
    }
    let mask = rules.params(letter);
    let bound: &[u32] = match mask {
        1 => &both[..1],
        2 => &both[1..],
        _ => both,
    };
    if mask.count_ones() as usize != bound.len() || !are_below(bound, objects) {
        return None;
    }
    Some(Step::Event {
        letter,
        binding: Binding::of(mask, bound),
    })
}

/// Whether all these objects are below a number.
fn are_below(objects: &[u32], n: u32) -> bool
    ensures { result ≡ true → All (λ o. o < n) objects.now }
{
    objects.iter().all(|object| *object < n)
}
