//! The names of handlers, where there are several properties.
ghost use Rattle.std.specs.Prelude.{ℕ, ◌+◌, ◌≡◌, ◌<◌, ◌≤◌, ◌++◌, ◌∷◌, List, OnOk, IfOk, length, map, string_bytes};
ghost use Rattle.jm_machine.specs.HandlerNames.{numbered, numbered_from, AreDistinct, AreEachDistinct};
ghost use Rattle.jm_machine.specs.Meanings.{handler_count};
ghost use Rattle.jm_machine.specs.RuleSets.{property_of};
ghost use Rattle.jm_goal.specs.Goals.{most_handlers};
ghost use Rattle.jm_spec.specs.Faults.{most_properties};

use crate::property::Property;
use itoa::Buffer;
use jm_events::Names;
use jm_model::NoMemory;
use std::alloc::Global;

/// The categories of the handlers, each with the number of its property before it, from 1, and a dot.
pub(crate) fn numbered_names(
    alloc: Global,
    first: &Property,
    others: &[Property],
) -> Result<Names, NoMemory>
    requires properties { length others.now < most_properties }
    requires handlers { handler_count (map property_of (first.now ∷ others.now)) ≤ most_handlers }
    requires distinct { AreEachDistinct (map (λ part. part.definition.handlers) (first.now ∷ others.now)) }
    ensures { IfOk result (λ names. names
        ≡ numbered_from 0 (map (λ part. part.definition.handlers) (first.now ∷ others.now))) }
{
    let mut names = Names::new(alloc);
    add_numbered(alloc, &mut names, 0, first.handlers())?;
    for number in 0..others.len() {
        add_numbered(
            alloc,
            &mut names,
            number as u8 + 1,
            others[number].handlers(),
        )?;
    }
    Ok(names)
}

/// Adds the categories of the property of this number, from 0.
fn add_numbered(
    alloc: Global,
    names: &mut Names,
    number: u8,
    categories: &Names,
) -> Result<(), NoMemory>
    requires number { number < most_handlers }
    requires bounded { length names.old + length categories.now ≤ most_handlers }
    requires distinct { AreDistinct (names.old ++ map (numbered number) categories.now) }
    ensures { OnOk result (names.new ≡ names.old ++ map (numbered number) categories.now) }
{
    for category in 0..categories.len() {
        let name = numbered(alloc, number, categories.name(category))?;
        names.add(name.as_str())?;
    }
    Ok(())
}

/// A category of the property of this number, from 0, as it is named.
fn numbered(alloc: Global, number: u8, category: &str) -> Result<String, NoMemory>
    requires { number < most_handlers }
    ensures { IfOk result (λ name. string_bytes name ≡ numbered number category.now) }
{
    let mut buffer = Buffer::new();
    let mut name = String::from_str(alloc, buffer.format(number + 1))?;
    name.push_str(".")?;
    name.push_str(category)?;
    Ok(name)
}
