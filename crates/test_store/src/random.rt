//! Runs of events, deaths and passes that look random, the same for each seed.
use crate::both::Both;
use jm_model::{Binding, Letter, Monitor, NoMemory, Step};
use testkit_steps::{Draw, with_pair};

/// What runs are made of.
#[derive(Clone, Copy)]
pub(crate) struct Runs {
    pub(crate) seed: u32,
    pub(crate) steps: u32,
    pub(crate) count: u32,
    pub(crate) objects: u32,
}

/// Does the runs, each with a pass at its end.
pub(crate) fn random<M: Monitor>(
    both: &mut Both<'_, M>,
    rules: &M,
    runs: Runs,
) -> Result<(), NoMemory> {
    let mut draw = Draw::new(runs.seed);
    for _ in 0..runs.count {
        both.begin(runs.objects)?;
        for _ in 0..runs.steps {
            let step = step_of(rules, &mut draw, runs.objects);
            take(both, &step)?;
        }
        take(both, &Step::Pass)?;
    }
    Ok(())
}

fn take<M: Monitor>(both: &mut Both<'_, M>, step: &Step) -> Result<(), NoMemory> {
    both.step(step)?;
    if let Step::Pass = step {
        both.lists()?;
    }
    Ok(())
}

fn step_of<M: Monitor>(rules: &M, draw: &mut Draw, objects: u32) -> Step {
    match draw.below(16) {
        0 => Step::Death {
            object: draw.below(objects),
        },
        1 | 2 => Step::Pass,
        _ => event_of(rules, draw, objects),
    }
}

/// An event of one of the letters, or a pass where there is none.
fn event_of<M: Monitor>(rules: &M, draw: &mut Draw, objects: u32) -> Step {
    let letters = rules.letters();
    let letter = Letter((draw.below(u32::from(letters)) % 256) as u8);
    if letter.0 >= letters {
        return Step::Pass;
    }
    let mask = rules.params(letter);
    let mut binding = Binding::empty();
    for p in 0..8 {
        if (mask >> p) % 2 == 1 {
            binding = with_pair(binding, p, draw.below(objects));
        }
    }
    Step::Event { letter, binding }
}
