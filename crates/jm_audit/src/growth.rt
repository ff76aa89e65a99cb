//! What an event makes of the instances.
ghost use Rattle.std.specs.Prelude.{◌≡◌, map, IfOk, OnOk};
ghost use Rattle.jm_audit.specs.Slices.{advanced, covers, makes_new, new_instances};

use crate::instance::Instance;
use jm_model::{Binding, Letter, NoMemory};
use std::alloc::Global;

/// The new instances that an event makes of these, before its letter is added.
pub(crate) fn new_instances(
    alloc: Global,
    seen: &[Binding],
    binding: &Binding,
    instances: &[Instance],
) -> Result<Vec<Instance>, NoMemory>
    ensures { IfOk result (λ new. new.items ≡ new_instances seen.now binding.now instances.now) }
{
    let mut new = Vec::new(alloc);
    for instance in instances {
        if makes_new(seen, binding, instance.binding()) {
            new.push(instance.joined(binding)?)?;
        }
    }
    Ok(new)
}

/// Whether the join of an instance and the binding of an event is a new instance with the slice of the one.
fn makes_new(seen: &[Binding], binding: &Binding, instance: &Binding) -> bool
    ensures { result ≡ makes_new seen.now binding.now instance.now }
{
    instance.compatible(binding)
        && !binding.le(instance)
        && covers(seen, &instance.join(binding), instance)
}

/// Whether each of the seen bindings that lies below the one lies below the other.
fn covers(seen: &[Binding], above: &Binding, below: &Binding) -> bool
    ensures { result ≡ covers seen.now above.now below.now }
{
    seen.iter().all(|b| !b.le(above) || b.le(below))
}

/// Adds the letter of an event to the slice of each instance above its binding.
pub(crate) fn advance(
    instances: &mut [Instance],
    letter: Letter,
    binding: &Binding,
) -> Result<(), NoMemory>
    ensures { OnOk result (instances.new ≡ map (advanced letter.0 binding.now) instances.old) }
{
    for instance in instances.iter_mut() {
        instance.advance(letter, binding)?;
    }
    Ok(())
}
