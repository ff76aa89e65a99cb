//! What the monitor says of the slices of instances.
ghost use Rattle.std.specs.Prelude.{◌≡◌, ◌<◌, ◌^◌, ◌↔◌, ℕ, Contains, true, bit_and, IsBitSet, IsTrue, IfOk, OnOk};
ghost use Rattle.std.specs.List.{AllByRecursion};
ghost use Rattle.std.specs.List.Sorted.{IsStrictlySortedBy};
ghost use Rattle.jm_model.specs.declared.binding.Binding.{Binding as BindingValue};
ghost use Rattle.jm_model.specs.Bindings.{binding_cmp, is_below, mask_of};
ghost use Rattle.jm_model.specs.Meanings.{IsHit};
ghost use Rattle.jm_semantics.specs.Answers.{firing_cmp};
ghost use Rattle.jm_audit.specs.Slices.{HaveLetters};
ghost use Rattle.jm_audit.specs.Accounts.{IsCutBy, AreHits, IsReport, AreAlive, AreKept, AreSame, IsPushed};

use crate::dead::dead_mask;
use crate::instance::Instance;
use jm_model::{Binding, Firing, Firings, Letter, Monitor, NoMemory};
use std::alloc::Global;

/// The state of the monitor after a word.
fn run_over<M: Monitor>(rules: &M, word: &[u8]) -> Result<M::State, NoMemory>
    requires { AllByRecursion (λ e. e < (M.meaning (M.definition rules.now)).letters) word.now }
    ensures { IfOk result (λ state. M.StandsFor rules.now state word.now) }
{
    let mut state = rules.begin()?;
    for letter in word {
        state = rules.next(&state, Letter(*letter))?;
    }
    Ok(state)
}

/// The handlers that the slice of an instance hits: bit k stands for handler k.
fn hits<M: Monitor>(rules: &M, instance: &Instance) -> Result<u16, NoMemory>
    requires { AllByRecursion (λ e. e < (M.meaning (M.definition rules.now)).letters) instance.now.word }
    ensures hit { IfOk result (λ hits. (k : ℕ) → (IsBitSet hits k ↔
        IsHit (M.meaning (M.definition rules.now)) instance.now.word k)) }
    ensures small { IfOk result (λ hits. hits < 2 ^ 16) }
{
    let state = run_over(rules, instance.word())?;
    Ok(rules.hits(&state))
}

/// Whether an instance is cut.
fn is_cut<M: Monitor>(rules: &M, dead: &[bool], instance: &Instance) -> Result<bool, NoMemory>
    requires { AllByRecursion (λ e. e < (M.meaning (M.definition rules.now)).letters) instance.now.word }
    ensures { IfOk result (λ cut. IsTrue cut ↔ IsCutBy (M.meaning (M.definition rules.now)) dead.now instance.now) }
{
    let state = run_over(rules, instance.word())?;
    Ok(rules.cut(&state, dead_mask(dead, instance.binding())))
}

/// The answer to an event of this binding, of which these are the instances afterwards.
pub(crate) fn report<M: Monitor>(
    alloc: Global,
    rules: &M,
    binding: &Binding,
    instances: &[Instance],
) -> Result<Firings, NoMemory>
    requires { HaveLetters (M.meaning (M.definition rules.now)) instances.now }
    ensures { IfOk result (λ firings. IsReport (M.meaning (M.definition rules.now)) binding.now instances.now firings) }
{
    let mut list = list_hits(alloc, rules, binding, instances)?;
    put_in_order(&mut list);
    let firings = answer(alloc, list.as_slice())?;
    Ok(firings)
}

/// The firings, instance by instance.
fn list_hits<M: Monitor>(
    alloc: Global,
    rules: &M,
    binding: &Binding,
    instances: &[Instance],
) -> Result<Vec<Firing>, NoMemory>
    requires { HaveLetters (M.meaning (M.definition rules.now)) instances.now }
    ensures { IfOk result (λ list. AreHits (M.meaning (M.definition rules.now)) binding.now instances.now list.items) }
{
    let must_bind = rules.must_bind();
    let mut list = Vec::new(alloc);
    for instance in instances {
        if is_asked(must_bind, binding, instance.binding()) {
            let hits = hits(rules, instance)?;
            push_hits(&mut list, instance.binding(), hits)?;
        }
    }
    Ok(list)
}

/// Whether an instance lies above the binding of an event, and binds what a reported instance has to bind.
fn is_asked(must_bind: u8, binding: &Binding, instance: &Binding) -> bool
    ensures { IsTrue result ↔ ((is_below binding.now instance.now ≡ true)
        × (bit_and must_bind (mask_of instance.now) ≡ must_bind)) }
{
    binding.le(instance) && must_bind & instance.mask() == must_bind
}

/// Adds a firing of the instance for each handler whose bit is set.
fn push_hits(list: &mut Vec<Firing>, instance: &Binding, hits: u16) -> Result<(), NoMemory>
    ensures { OnOk result (IsPushed instance.now hits 16 list.old.items list.new.items) }
{
    for handler in 0..16 {
        if (hits >> handler) % 2 == 1 {
            list.push(Firing {
                instance: *instance,
                handler,
            })?;
        }
    }
    Ok(())
}

/// Puts the firings in their order, each once.
fn put_in_order(list: &mut Vec<Firing>)
    ensures increasing { IsStrictlySortedBy firing_cmp list.new.items }
    ensures members { AreSame list.old.items list.new.items }
{
    list.sort_unstable_by(|f, g| f.instance.cmp(&g.instance).then(f.handler.cmp(&g.handler)));
    list.dedup_by(|f, g| {
        f.instance
            .cmp(&g.instance)
            .then(f.handler.cmp(&g.handler))
            .is_eq()
    });
}

/// The list as an answer.
fn answer(alloc: Global, list: &[Firing]) -> Result<Firings, NoMemory>
    ensures { IfOk result (λ firings. firings ≡ list.now) }
{
    let mut firings = Firings::new(alloc);
    for firing in list {
        firings.push(*firing)?;
    }
    Ok(firings)
}

/// The instances that a pass keeps, in their order: those that aren't cut.
pub(crate) fn kept<M: Monitor>(
    alloc: Global,
    rules: &M,
    dead: &[bool],
    instances: &[Instance],
) -> Result<Vec<Binding>, NoMemory>
    requires { HaveLetters (M.meaning (M.definition rules.now)) instances.now }
    ensures { IfOk result (λ kept. AreKept (M.meaning (M.definition rules.now)) dead.now instances.now kept.items) }
{
    let mut list = list_alive(alloc, rules, dead, instances)?;
    put_bindings_in_order(&mut list);
    Ok(list)
}

/// Puts the bindings in their order, each once.
fn put_bindings_in_order(list: &mut Vec<Binding>)
    ensures increasing { IsStrictlySortedBy binding_cmp list.new.items }
    ensures members { (t : BindingValue) → (Contains list.old.items t ↔ Contains list.new.items t) }
{
    list.sort_unstable_by(|b, t| b.cmp(t));
    list.dedup_by(|b, t| b.cmp(t).is_eq());
}

/// Those bindings as they come, instance by instance.
fn list_alive<M: Monitor>(
    alloc: Global,
    rules: &M,
    dead: &[bool],
    instances: &[Instance],
) -> Result<Vec<Binding>, NoMemory>
    requires { HaveLetters (M.meaning (M.definition rules.now)) instances.now }
    ensures { IfOk result (λ list. AreAlive (M.meaning (M.definition rules.now)) dead.now instances.now list.items) }
{
    let mut list = Vec::new(alloc);
    for instance in instances {
        if !is_cut(rules, dead, instance)? {
            list.push(*instance.binding())?;
        }
    }
    Ok(list)
}
