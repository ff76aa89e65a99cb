//! Many seats at work at once, each on a thread of its own.
ghost use Rattle.std.specs.Prelude.{◌≡◌, All, IfOk, vec_len};
ghost use denote.Param.Send.{IsSync};
ghost use Rattle.jm_turn.specs.Seats.{IsSeatOf};
ghost use Rattle.test_dispatch_storm.specs.Runners.{AreFitSteps, IsRunnerOf};

use crate::plan::{Plan, rounds_of};
use jm_core::Prop;
use jm_dispatch::{Note, Seat, Watch, Watched};
use jm_model::{Monitor, NoMemory, Step};
use jm_turn::Lock;
use std::alloc::Global;
use std::sync::Wait;
use std::thread;
use std::thread::Threads;

/// A seat, and a note that it is to hear.
type Runner<M> = (Seat<M>, Note<M>);

/// The core after a storm.
pub(crate) fn storm<R: Threads + Wait + Sync, M: Monitor + Send>(
    rt: &R,
    alloc: Global,
    rules: M,
    plan: Plan,
) -> Result<Prop<M>, NoMemory>
where
    M::State: Send,
{
    let rounds = rounds_of(alloc, &rules, plan)?;
    let (watch, seats) = Watch::new(alloc, rules, plan.objects, plan.seats.clamp(1, 16))?;
    let back = all_rounds(rt, alloc, &watch, seats, rounds)?;
    Ok(watch.close(back))
}

/// All rounds, one after the other.
fn all_rounds<R: Threads + Wait + Sync, M: Monitor + Send>(
    rt: &R,
    alloc: Global,
    watch: &Watch<M>,
    mut seats: Vec<Seat<M>>,
    rounds: Vec<Vec<Step>>,
) -> Result<Vec<Seat<M>>, NoMemory>
where
    M::State: Send,
    requires seats { All (λ s. IsSeatOf watch.now s) seats.items }
    requires rounds { All (λ steps. AreFitSteps (M.meaning watch.now.fixed.definition)
        watch.now.fixed.objects steps.items) rounds.items }
    ensures count { IfOk result (λ back. vec_len back ≡ vec_len seats) }
    ensures seats { IfOk result (λ back. All (λ s. IsSeatOf watch.now s) back.items) }
{
    for steps in rounds {
        seats = one_round(rt, alloc, watch, seats, &steps)?;
    }
    Ok(seats)
}

/// A round: each seat hears the note of the seat before it, and does its steps on a thread of its own.
fn one_round<R: Threads + Wait + Sync, M: Monitor + Send>(
    rt: &R,
    alloc: Global,
    watch: &Watch<M>,
    seats: Vec<Seat<M>>,
    steps: &[Step],
) -> Result<Vec<Seat<M>>, NoMemory>
where
    M::State: Send,
    requires seats { All (λ s. IsSeatOf watch.now s) seats.items }
    requires steps { AreFitSteps (M.meaning watch.now.fixed.definition) watch.now.fixed.objects steps.now }
    ensures count { IfOk result (λ back. vec_len back ≡ vec_len seats) }
    ensures seats { IfOk result (λ back. All (λ s. IsSeatOf watch.now s) back.items) }
{
    // The threads share the dispatcher. Two steps show that they may, since the search for all of it ends at its limit.
    may_be_shared::<Lock<Watched<M>>>();
    may_be_shared::<Watch<M>>();
    let all = seats.len();
    let runners = passed_round(alloc, watch, seats)?;
    let back = thread::map_vec(
        rt,
        runners,
        &|runner: Runner<M>| -> Result<Seat<M>, NoMemory>
            requires { IsRunnerOf watch.now runner
                × AreFitSteps (M.meaning watch.now.fixed.definition) watch.now.fixed.objects steps.now }
            ensures { IfOk result (λ s. IsSeatOf watch.entry.now s) }
        { at_work(rt, alloc, watch, runner, steps, all) },
    )?;
    all_back(alloc, watch, back)
}

/// Nothing is done: a call shows that values of the type may be shared among threads.
fn may_be_shared<T: Sync>()
    ensures { IsSync T.row }
{}

/// Each seat with a note of what the seat before it has seen. The first has that of the last.
fn passed_round<M: Monitor>(
    alloc: Global,
    watch: &Watch<M>,
    mut seats: Vec<Seat<M>>,
) -> Result<Vec<Runner<M>>, NoMemory>
    requires { All (λ s. IsSeatOf watch.now s) seats.items }
    ensures count { IfOk result (λ runners. vec_len runners ≡ vec_len seats) }
    ensures runners { IfOk result (λ runners. All (λ r. IsRunnerOf watch.now r) runners.items) }
{
    let mut runners = Vec::new(alloc);
    let Some(mut last) = seats.pop() else {
        return Ok(runners);
    };
    let mut note = watch.note(&mut last);
    for mut seat in seats {
        let next = watch.note(&mut seat);
        runners.push((seat, note))?;
        note = next;
    }
    runners.push((last, note))?;
    Ok(runners)
}

/// A seat hears its note, and does each step whose place among all of the round is its own modulo the number of seats.
fn at_work<M: Monitor>(
    rt: &impl Wait,
    alloc: Global,
    watch: &Watch<M>,
    runner: Runner<M>,
    steps: &[Step],
    seats: usize,
) -> Result<Seat<M>, NoMemory>
    requires runner { IsRunnerOf watch.now runner }
    requires steps { AreFitSteps (M.meaning watch.now.fixed.definition) watch.now.fixed.objects steps.now }
    ensures { IfOk result (λ s. IsSeatOf watch.now s) }
{
    let (mut seat, note) = runner;
    watch.hear(&mut seat, note);
    let mut place = seat.number() as usize;
    for _turn in 0..steps.len() {
        if place < steps.len() {
            watch.step(rt, alloc, &mut seat, 1, steps[place])?;
        }
        place = place.saturating_add(seats);
    }
    Ok(seat)
}

/// All seats that came back, if all did.
fn all_back<M: Monitor>(
    alloc: Global,
    watch: &Watch<M>,
    back: Vec<Result<Seat<M>, NoMemory>>,
) -> Result<Vec<Seat<M>>, NoMemory>
    requires { All (λ r. IfOk r (λ s. IsSeatOf watch.now s)) back.items }
    ensures count { IfOk result (λ seats. vec_len seats ≡ vec_len back) }
    ensures seats { IfOk result (λ seats. All (λ s. IsSeatOf watch.now s) seats.items) }
{
    let mut seats = Vec::new(alloc);
    for seat in back {
        seats.push(seat?)?;
    }
    Ok(seats)
}
