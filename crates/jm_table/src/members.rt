//! The members of a group, as places of a list.
ghost use Rattle.std.specs.Prelude.{◌≤◌, ◌^◌, IfOk, length};
ghost use Rattle.std.specs.Fn.{FnReturnsAt};
ghost use Rattle.jm_table.specs.Members.{ArePlaces};

use jm_model::NoMemory;
use std::alloc::Global;

/// The places of a list at which `holds` answers that it does.
pub fn places<T, F: Fn(&T) -> bool + Drop>(
    alloc: Global,
    items: &[T],
    holds: F,
) -> Result<Vec<u16>, NoMemory>
    requires bounded { length items.now ≤ 2 ^ 16 }
    requires calls { F.IsAlwaysCallable holds }
    ensures { IfOk result (λ v. ArePlaces (FnReturnsAt F.Fn holds) items.now (length items.now) v.items) }
{
    let mut places = Vec::new(alloc);
    for (place, item) in items.iter().enumerate() {
        if holds(item) {
            places.push(place as u16)?;
        }
    }
    Ok(places)
}
