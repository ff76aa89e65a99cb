//! The parts of a recording, replayed.
ghost use Rattle.std.specs.Prelude.{All, IfOk};
ghost use Rattle.jm_sweep.specs.Sweeps.{Fits};
ghost use Rattle.jm_sweep.specs.Replays.{IsReplayOf, AreReplaysOf};

use crate::lent::Lent;
use jm_core::Prop;
use jm_history::History;
use jm_model::{Monitor, NoMemory, Step};
use rayon::prelude::*;
use std::alloc::{AllocError, Global};
use std::thread::Threads;

/// A part of a recording: how many objects it names, and its steps with their lines.
#[derive(Drop)]
pub struct Part {
    pub objects: u32,
    pub steps: Vec<(u32, Step)>,
}

/// The history of each part, in order: its steps, done by caller 0 on a core of its own. The parts are split among
/// threads. An error comes only where there was no memory.
pub fn replay_all<M: Monitor + Sync, R: Threads + Sync>(
    rt: &R,
    alloc: Global,
    rules: &M,
    parts: &[Part],
) -> Result<Vec<History>, NoMemory>
where
    M::State: Send,
    requires { All (λ p. Fits (M.meaning (M.definition rules.now)) p.objects p.steps.items) parts.now }
    ensures { IfOk result (λ hs. AreReplaysOf (M.meaning (M.definition rules.now)) parts.now hs.items) }
{
    split(rt, alloc, rules, parts)?
}

/// The histories, where the outer error is out of memory in the splitting, and the inner one in a part.
fn split<M: Monitor + Sync, R: Threads + Sync>(
    rt: &R,
    alloc: Global,
    rules: &M,
    parts: &[Part],
) -> Result<Result<Vec<History>, NoMemory>, AllocError>
where
    M::State: Send,
    requires { All (λ p. Fits (M.meaning (M.definition rules.now)) p.objects p.steps.items) parts.now }
    ensures { IfOk result (λ r. IfOk r (λ hs.
        AreReplaysOf (M.meaning (M.definition rules.now)) parts.now hs.items)) }
{
    parts
        .par_iter()
        .with_min_len(1)
        .map(
            |part: &Part| -> Result<History, NoMemory>
                requires { Fits (M.meaning (M.definition rules.now)) part.now.objects part.now.steps.items }
                ensures { IfOk result (λ h. IsReplayOf (M.meaning (M.definition rules.entry.now)) part.now h) }
            { replay_part(alloc, rules, part) },
        )
        .collect(rt, alloc)
}

/// The history of a part: its steps, done by caller 0 on a core of its own.
pub fn replay_part<M: Monitor>(alloc: Global, rules: &M, part: &Part) -> Result<History, NoMemory>
    requires { Fits (M.meaning (M.definition rules.now)) part.now.objects part.now.steps.items }
    ensures { IfOk result (λ h. IsReplayOf (M.meaning (M.definition rules.now)) part.now h) }
{
    let mut prop = Prop::new(alloc, Lent::new(rules), part.objects)?;
    prop.replay(0, part.steps.as_slice())?;
    Ok(prop.into_history())
}
